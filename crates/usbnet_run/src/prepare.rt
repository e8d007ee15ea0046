//! A link for a script's text.

ghost use Rattle.std.specs.Prelude.{◌≡◌, IfErr, IfOk, Ok};
ghost use Rattle.un_script.specs.Reading.{script_of};
ghost use Rattle.usbnet_run.specs.Prepared.{IsPrepared};
ghost use Rattle.usbnet_run.specs.Runs.{Refuses};

use crate::refusal::Refusal;
use std::alloc::Global;
use un_link::Link;
use un_script::{Script, ScriptError, read};
use un_setup::{Agreed, agree};

/// A new link, and what its two ends agreed on.
#[derive(Drop)]
pub struct Prepared {
    pub link: Link,
    pub agreed: Agreed,
}

/// The script of a text. The refusal is `BadScript` where the text is no script, and `NoMemory` for want of memory.
fn read_script(alloc: Global, text: Vec<u8>) -> Result<Script, Refusal>
    ensures script { IfOk result (λ script. script_of text.items ≡ Ok script) }
    ensures refused { IfErr result (Refuses text.items) }
{
    match read(alloc, &text) {
        Ok(script) => Ok(script),
        Err(ScriptError::BadLine { line, why }) => Err(Refusal::BadScript { line, why }),
        Err(ScriptError::NoMemory) => Err(Refusal::NoMemory),
    }
}

/// Reads a script, lets the two ends agree on its parameters, and makes the link. The refusal is `BadScript` where the text is no
/// script, that of the set-up where its parameters don't agree, and want of memory.
pub fn prepare(alloc: Global, text: Vec<u8>) -> Result<Prepared, Refusal>
    ensures prepared { IfOk result (λ p. IsPrepared text.items p.link p.agreed) }
    ensures refused { IfErr result (Refuses text.items) }
{
    let script = read_script(alloc, text)?;
    script.prove_ready();
    let agreed = agree(alloc, script.params())?;
    let link = Link::make(alloc, script, &agreed)?;
    Ok(Prepared { link, agreed })
}
