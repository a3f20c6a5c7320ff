//! What holds of all bytes. The functions do nothing.

ghost use Rattle.kr_stream.specs.Laws.{FramesAreToldApart, OutputsAreToldApart, RefusedBytesBeginNone, UnfinishedBytesBeginNone, WrittenOutputsStand};

/// Bytes stand for one frame at most, and no frame begins another.
pub fn frames_are_told_apart()
    ensures { FramesAreToldApart }
{}

/// Where `next` answers Malformed or TooLong, no frame stands at the front of the stream.
pub fn no_frame_is_passed_over()
    ensures refused { RefusedBytesBeginNone }
    ensures unfinished { UnfinishedBytesBeginNone }
{}

/// What is written for outputs stands for them, frame after frame.
pub fn written_outputs_stand()
    ensures { WrittenOutputsStand }
{}

/// The frames of outputs tell where they end, and what they are.
pub fn outputs_are_told_apart()
    ensures { OutputsAreToldApart }
{}
