//! Where contexts are kept.
ghost use Rattle.std.specs.Prelude.{◌≡◌, IfErr, OnErr, OnOk};
ghost use Rattle.contexts.specs.Inbound.{Keeps};
ghost use Rattle.contexts.specs.declared.fault.ContextFault.TheVariants.{OutOfMemory};

use crate::fault::ContextFault;
use lru::LruCache;
use std::alloc::Global;

/// Keeps the context that an SSRC begins with in memory of its own: the table moves what it holds, and a context may have
/// 64 KiB.
pub(crate) fn keep<T: Drop>(
    contexts: &mut LruCache<u32, Box<T>>,
    alloc: Global,
    ssrc: u32,
    context: T,
) -> Result<(), ContextFault>
    ensures ok { OnOk result (Keeps ssrc context contexts.old contexts.new) }
    ensures fault { IfErr result (λ fault. fault ≡ OutOfMemory) }
    ensures err { OnErr result (contexts.new ≡ contexts.old) }
{
    let Ok(boxed) = Box::new(alloc, context) else {
        return Err(ContextFault::OutOfMemory);
    };
    match contexts.put(ssrc, boxed) {
        Ok(_) => Ok(()),
        Err(_) => Err(ContextFault::OutOfMemory),
    }
}
