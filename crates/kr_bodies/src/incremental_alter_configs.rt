//! IncrementalAlterConfigs: its request from bytes, its reply to bytes.

ghost use Rattle.std.specs.Prelude.{◌≡◌, ◌≤◌, refl, length, drop, OnOk, OnErr};
ghost use Rattle.kr_layout.specs.Answers.{Answers, Begins, Puts};
ghost use Rattle.kr_bodies.specs.IncrementalAlterConfigs.{IsIncrementalAlterConfigs, config_operation, config_resource, config_response, incremental_alter_configs, incremental_alter_configs_reply};

use crate::Mine;
use kr_base::NoMemory;
use kr_calls::{
    ConfigOperation, ConfigResource, ConfigResponse, IncrementalAlterConfigs,
    IncrementalAlterConfigsReply,
};
use kr_layout::{BodyFault, Get, Put, ReadFault, Reader, put_end, read_body};
use kr_wire::put_null;
use std::alloc::Global;

impl Get<Mine> for ConfigOperation {
    ghost schema = { config_operation };

    ghost is_whole = { refl };

    fn least() -> usize {
        4
    }

    fn get(from: &mut Reader<'_, Mine>) -> Result<ConfigOperation, ReadFault> {
        let operation = ConfigOperation {
            name: from.get()?,
            operation: from.get()?,
            value: from.get()?,
        };
        from.end()?;
        Ok(operation)
    }
}

impl Get<Mine> for ConfigResource {
    ghost schema = { config_resource };

    ghost is_whole = { refl };

    fn least() -> usize {
        4
    }

    fn get(from: &mut Reader<'_, Mine>) -> Result<ConfigResource, ReadFault> {
        let resource = ConfigResource {
            kind: from.get()?,
            name: from.get()?,
            configs: from.get()?,
        };
        from.end()?;
        Ok(resource)
    }
}

impl Get<Mine> for IncrementalAlterConfigs {
    ghost schema = { incremental_alter_configs };

    ghost is_whole = { refl };

    fn least() -> usize {
        3
    }

    fn get(from: &mut Reader<'_, Mine>) -> Result<IncrementalAlterConfigs, ReadFault> {
        let configs = IncrementalAlterConfigs {
            resources: from.get()?,
            validate_only: from.get()?,
        };
        from.end()?;
        Ok(configs)
    }
}

impl Put<Mine> for ConfigResponse {
    ghost schema = { config_response };

    fn put_parts(&self, mine: &Mine, out: &mut Vec<u8>) -> Result<(), NoMemory> {
        self.error.put(mine, out)?;
        put_null(out)?;
        self.kind.put(mine, out)?;
        self.name.put(mine, out)?;
        put_end(out)
    }
}

impl Put<Mine> for IncrementalAlterConfigsReply {
    ghost schema = { incremental_alter_configs_reply };

    fn put_parts(&self, mine: &Mine, out: &mut Vec<u8>) -> Result<(), NoMemory> {
        0i32.put(mine, out)?;
        self.responses.put(mine, out)?;
        put_end(out)
    }
}

/// The IncrementalAlterConfigs that all of the message's bytes from a place on stand for, or the first fault in
/// reading order.
pub fn read_incremental_alter_configs(
    alloc: Global,
    message: &[u8],
    at: usize,
) -> Result<IncrementalAlterConfigs, BodyFault>
    requires { at ≤ length message.now }
    ensures { Answers IsIncrementalAlterConfigs incremental_alter_configs (drop at message.now) result }
{
    read_body::<Mine, _>(alloc, message, at)
}

/// Appends what is written for the reply. Without memory nothing changes.
pub fn put_incremental_alter_configs(
    reply: &IncrementalAlterConfigsReply,
    out: &mut Vec<u8>,
) -> Result<(), NoMemory>
    ensures ok { OnOk result (Puts incremental_alter_configs_reply reply.now out.old.items out.new.items) }
    ensures err { OnErr result (out.new.items ≡ out.old.items) }
{
    reply.put(&Mine, out)
}
