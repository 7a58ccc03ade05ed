//! JSON values of bytes.

ghost use Rattle.std.specs.Prelude.{◌≡◌, IfOk, IfErr, option_map};
ghost use Rattle.event_read.specs.Json.{json_of};
ghost use Rattle.serde_json.specs.View.{view};

use serde_json::Value;
use sig_base::Fault;
use std::alloc::Global;

/// The JSON value that the bytes are, if they are one; only want of memory is a fault.
pub(super) fn read_json(alloc: Global, bytes: &[u8]) -> Result<Option<Value>, Fault>
    ensures ok { IfOk result (λ value. option_map view value ≡ json_of bytes.now) }
    ensures err { IfErr result (λ e. e ≡ Fault.Memory) }
{
    match Value::from_slice(alloc, bytes) {
        Ok(value) => Ok(Some(value)),
        Err(error) => {
            if error.is_memory() {
                return Err(Fault::Memory);
            }
            Ok(None)
        }
    }
}
