//! What holds of all spellings, and of what stands at the front of bytes.

ghost use Rattle.frame_codec.specs.Laws.{OneSpelling, OneFrame, OneServerFrame, NoneIsPrefix, NoneIsServerPrefix, OneBegins, OneServerBegins, ShortBeginsNone, ShortServerBeginsNone, OneStream, OneServerStream, IsReadAgain, IsServiceReadAgain};

/// Each frame has one spelling, of which none is a proper prefix of another.
pub fn spellings_are_apart()
    ensures one { OneSpelling }
    ensures frame { OneFrame }
    ensures server_frame { OneServerFrame }
    ensures prefix { NoneIsPrefix }
    ensures server { NoneIsServerPrefix }
{}

/// At most one frame stands at the front of bytes, none at that of a part of one, and so a stream
/// has one list of frames.
pub fn streams_have_one_reading()
    ensures one { OneBegins }
    ensures server_one { OneServerBegins }
    ensures short { ShortBeginsNone }
    ensures server_short { ShortServerBeginsNone }
    ensures stream { OneStream }
    ensures server_stream { OneServerStream }
{}

/// What one end wrote of a frame the other end reads as that frame, whole, in both directions and
/// whatever stands behind it; but where memory is refused.
pub fn frames_are_read_again()
    ensures server { IsReadAgain }
    ensures service { IsServiceReadAgain }
{}
