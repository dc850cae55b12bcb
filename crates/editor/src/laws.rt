// The theorems about whole runs, over the contracts of begin, turn, show, write and read: each function asks for the one that its contract names.
ghost use Rattle.editor.specs.Runs.{ShowsThePage};
ghost use Rattle.editor.specs.Main.{MainPromise};
ghost use Rattle.editor.specs.Script.{ScriptPlayed};
ghost use Rattle.editor.specs.Theorems.{CarriedOut, StillReady, UndoneAndRedone, OutsideStays, WhateverWasLent};

// What is shown is what the turns mean, whatever was saved and opened again between them.
pub fn shows_the_page()
    ensures { ShowsThePage }
{}

// A turn is carried out where enough is lent, and enough for all turns of a run is enough for each.
pub fn carried_out()
    ensures one { CarriedOut }
    ensures run { StillReady }
{}

// Undo shows what was shown before, redo what was shown after.
pub fn undone_and_redone()
    ensures { UndoneAndRedone }
{}

// Outside the selection painting leaves every layer.
pub fn outside_stays()
    ensures { OutsideStays }
{}

// The same turns show the same, in whatever memory.
pub fn whatever_was_lent()
    ensures { WhateverWasLent }
{}

// Whatever functions meet the five contracts show what the turns mean (SameSeen), also through files (KeptInFiles).
pub fn main_promise()
    ensures { MainPromise }
{}

// Where `play` is given the bytes of turns, and enough is lent for them, it answers with the pixel of their page.
pub fn script_played()
    ensures { ScriptPlayed }
{}
