//! The kinds of frames that are read.

ghost use Rattle.std.specs.Prelude.{◌≡◌, IfSome, IfNone};
ghost use Rattle.kr_stream.specs.declared.kind.FrameKind.{FrameKind as Kind};
ghost use Rattle.kr_stream.specs.Kinds as kinds;

use kr_defs::limits::{LONGEST_CLUSTER, MOST_FRAME_BYTES, MOST_LOAD_BYTES, MOST_MESSAGE_BYTES};

/// The kind of a frame that is read.
#[derive(Clone, Copy, Debug, Drop, PartialEq, Eq)]
pub enum FrameKind {
    /// Number 1: what the controller is started with.
    Open,
    /// Number 2: this node became the leader.
    Lead,
    /// Number 3: the log is committed up to a place.
    Commit,
    /// Number 4: the leadership is lost.
    Lost,
    /// Number 5: a committed batch of another leader.
    Batch,
    /// Number 6: a committed image in place of batches.
    Load,
    /// Number 7: time went on.
    Tick,
    /// Number 8: a client's message.
    Request,
    /// Number 9: the committed image is asked for.
    Image,
    /// Number 10: the session's end.
    End,
}

impl FrameKind {
    /// The kind with this number.
    pub fn with_number(number: u8) -> Option<FrameKind>
        ensures some { IfSome result (λ kind. number ≡ kinds.number_of kind) }
        ensures none { IfNone result ((kind : Kind) → number ≡ kinds.number_of kind → ⊥) }
    {
        match number {
            0x01 => Some(FrameKind::Open),
            0x02 => Some(FrameKind::Lead),
            0x03 => Some(FrameKind::Commit),
            0x04 => Some(FrameKind::Lost),
            0x05 => Some(FrameKind::Batch),
            0x06 => Some(FrameKind::Load),
            0x07 => Some(FrameKind::Tick),
            0x08 => Some(FrameKind::Request),
            0x09 => Some(FrameKind::Image),
            0x0a => Some(FrameKind::End),
            _ => None,
        }
    }

    /// The most bytes of a body of this kind.
    pub fn longest_body(self) -> usize
        ensures { result ≡ kinds.longest_body self }
    {
        match self {
            FrameKind::Open => 26 + LONGEST_CLUSTER,
            FrameKind::Lead => 20,
            FrameKind::Commit => 12,
            FrameKind::Lost => 4,
            FrameKind::Batch => MOST_FRAME_BYTES - 1,
            FrameKind::Load => MOST_LOAD_BYTES - 1,
            FrameKind::Tick => 8,
            FrameKind::Request => 12 + MOST_MESSAGE_BYTES,
            FrameKind::Image => 0,
            FrameKind::End => 0,
        }
    }

    /// A frame of this kind may stand here: Open at the beginning of a session, and each other kind behind it.
    pub fn may_stand(self, opened: bool) -> bool
        ensures { result ≡ kinds.may_stand opened self }
    {
        match self {
            FrameKind::Open => !opened,
            _ => opened,
        }
    }
}
