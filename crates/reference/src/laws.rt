// What opening and writing have to do with each other, as a theorem.
ghost use Rattle.reference.specs.Filing.{KeptInFiles};

// A page that is written to a file and opened again has the same history.
pub fn kept_in_files()
    ensures { KeptInFiles }
{}
