//! Reply messages.

ghost use Rattle.std.specs.Prelude.{◌≡◌, ◌++◌, OnOk, OnErr};
ghost use Rattle.kr_layout.specs.Answers.{Begins};
ghost use Rattle.kr_req.specs.WrittenReplies.{ReplyFits, reply_bytes};

use crate::body::put_body;
use kr_base::NoMemory;
use kr_calls::Reply;
use kr_layout::put_end;
use kr_wire::put_i32;

// The correlation id, no tagged field, and the body. Without memory some of it may stand behind what there was.
fn put_parts(correlation: i32, reply: &Reply, out: &mut Vec<u8>) -> Result<(), NoMemory>
    ensures ok { OnOk result (out.new.items ≡ out.old.items ++ reply_bytes correlation reply.now) }
    ensures fits { OnOk result (ReplyFits correlation reply.now) }
    ensures err { OnErr result (Begins out.old.items out.new.items) }
{
    put_i32(out, correlation)?;
    put_end(out)?;
    put_body(reply, out)
}

/// Appends what is written for the reply's message. Without memory nothing changes.
pub fn encode_reply(correlation: i32, reply: &Reply, out: &mut Vec<u8>) -> Result<(), NoMemory>
    ensures ok { OnOk result (out.new.items ≡ out.old.items ++ reply_bytes correlation reply.now) }
    ensures fits { OnOk result (ReplyFits correlation reply.now) }
    ensures err { OnErr result (out.new.items ≡ out.old.items) }
{
    let before = out.len();
    let put = put_parts(correlation, reply, out);
    if put.is_err() {
        out.truncate(before);
    }
    put
}
