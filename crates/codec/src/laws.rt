// What reading and writing have to do with each other, as theorems.
ghost use Rattle.codec.specs.Laws.{ReadsWritten, WrittenRead, TurnWrittenRead, TurnAnswered};
ghost use Rattle.codec.specs.FileLaws.{FileWrittenRead, EditsInOrder, FileAnswered};

// What is read is what was written, of edits of every kind and wherever they stand.
pub fn reads_written()
    ensures { ReadsWritten }
{}

// What is written is read: edits of every kind; turns and files where their kinds are built.
pub fn written_read()
    ensures edits { WrittenRead }
    ensures turns { TurnWrittenRead }
    ensures files { FileWrittenRead }
{}

// Every row of bytes is a turn, or a file, or is refused by one number at one place.
pub fn answered()
    ensures turns { TurnAnswered }
    ensures files { FileAnswered }
{}

// The edits of a file are those that `edit_at` gives one after the other.
pub fn edits_in_order()
    ensures { EditsInOrder }
{}
