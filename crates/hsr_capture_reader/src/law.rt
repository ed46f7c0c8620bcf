//! What is written is read.
ghost use Rattle.hsr_capture_reader.specs.Written.{IsReadBack};

/// The blocks that `hsr_pcapng` writes are read back as themselves: each stands where it was written, with its type and its body,
/// and what follows it is read as if it stood alone.
pub fn written_is_read()
    ensures { IsReadBack }
{}
