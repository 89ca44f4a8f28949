ghost use Rattle.migrate_frames.specs.Laws.{ReadingInvertsWriting, WritingIsCanonical};

/// FramesExact: each batch that has a frame is read from it again.
pub fn reading_inverts_writing()
    ensures { ReadingInvertsWriting }
{}

/// What is read stands so in the bytes, each of them: so a batch has one frame.
pub fn writing_is_canonical()
    ensures { WritingIsCanonical }
{}
