// The texts of a program.
ghost use Rattle.std.specs.Prelude.{◌≡◌, Ok, IfOk, length};
ghost use Rattle.psac_inputs.specs.Texts.{all_added};

use psac_base::NoMemory;
use psac_inputs::Interner;
use psac_ops::TextId;
use psac_syntax::TextConst;
use std::alloc::Global;

/// Adds the texts of a program to a list, in order: their ids. A program's texts are within the limits of a list that is
/// empty, so only memory can be wanting.
pub fn enter_texts(
    alloc: Global,
    consts: &[TextConst],
    texts: &mut Interner,
) -> Result<Vec<TextId>, NoMemory>
    ensures added { IfOk result (λ ids. all_added consts.now texts.old ≡ Ok (ids.items, texts.new)) }
    ensures each { IfOk result (λ ids. length ids.items ≡ length consts.now) }
{
    let mut ids = Vec::with_capacity(alloc, consts.len())?;
    'each: for text in consts {
        match texts.add(text.bytes()) {
            Ok(id) => ids.push(id)?,
            Err(_) => return Err(NoMemory),
        }
    }
    Ok(ids)
}
