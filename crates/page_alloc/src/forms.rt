//! Reads the words of one line. The first word selects the form. Each form checks its words in the
//! order in which faults are reported.

ghost use Rattle.std.specs.Prelude.{◌≡◌, IfOk, IfErr};
ghost use Rattle.script_reader.specs.Numbers.{IsWordFault};
ghost use Rattle.text_words.specs.Words.{words_in};
ghost use Rattle.text_words.specs.declared.separators.Separators.TheVariants as separators;
ghost use Rattle.page_alloc.specs.Forms.{zone_by_name, pages_line, near_line, give_line, page_act_by_name};
ghost use Rattle.page_alloc.specs.Pages.{HasValidOrder};

use crate::act::PageAct;
use bm_base::Zone;
use script_reader::{
    GREATEST_ID, GREATEST_NODE, ScriptLineFault, first_word, number_within, one_word,
};

/// The largest order that a script can request, 10: 1,024 frames.
const GREATEST_ORDER: u64 = 10;

/// Returns the command `name` with its arguments, which are the words of `rest`.
///
/// # Errors
///
/// - `Form`: there is no such command, or its words don't have the command's form.
/// - `Number`: the words have the form, but a number is malformed or above its limit.
pub fn page_act_by_name(name: &[u8], rest: &[u8]) -> Result<PageAct, ScriptLineFault>
    ensures value { result ≡ page_act_by_name name.now (words_in separators.Script rest.now) }
    ensures order { IfOk result HasValidOrder }
    ensures of_words { IfErr result IsWordFault }
{
    if name == b"pages".as_slice() {
        return pages_line(rest);
    }
    if name == b"near".as_slice() {
        return near_line(rest);
    }
    if name == b"give".as_slice() {
        return give_line(rest);
    }
    Err(ScriptLineFault::Form)
}

/// Returns the zone that the kernel calls by this name: `DMA`, `DMA32` or `Normal`.
///
/// # Errors
///
/// - `Form`: there is no zone of this name.
fn zone_by_name(word: &[u8]) -> Result<Zone, ScriptLineFault>
    ensures value { result ≡ zone_by_name word.now }
    ensures of_words { IfErr result IsWordFault }
{
    if word == b"DMA".as_slice() {
        return Ok(Zone::Dma);
    }
    if word == b"DMA32".as_slice() {
        return Ok(Zone::Dma32);
    }
    if word == b"Normal".as_slice() {
        return Ok(Zone::Normal);
    }
    Err(ScriptLineFault::Form)
}

/// Reads `ID ORDER NODE ZONE`, the words of a `pages` line after the first.
///
/// # Errors
///
/// - `Form`: the words don't have this form.
/// - `Number`: a number is malformed or above its limit.
fn pages_line(text: &[u8]) -> Result<PageAct, ScriptLineFault>
    ensures value { result ≡ pages_line (words_in separators.Script text.now) }
    ensures order { IfOk result HasValidOrder }
    ensures of_words { IfErr result IsWordFault }
{
    let (id, rest) = first_word(text)?;
    let (order, rest) = first_word(rest)?;
    let (node, rest) = first_word(rest)?;
    let zone = zone_by_name(one_word(rest)?)?;
    let id = number_within(GREATEST_ID, id)? as u32;
    let order = number_within(GREATEST_ORDER, order)? as u32;
    let node = number_within(GREATEST_NODE, node)? as u32;
    Ok(PageAct::Pages {
        id,
        order,
        node,
        zone,
    })
}

/// Reads `ID ORDER NODE`, the words of a `near` line after the first.
///
/// # Errors
///
/// - `Form`: the words don't have this form.
/// - `Number`: a number is malformed or above its limit.
fn near_line(text: &[u8]) -> Result<PageAct, ScriptLineFault>
    ensures value { result ≡ near_line (words_in separators.Script text.now) }
    ensures order { IfOk result HasValidOrder }
    ensures of_words { IfErr result IsWordFault }
{
    let (id, rest) = first_word(text)?;
    let (order, rest) = first_word(rest)?;
    let node = one_word(rest)?;
    let id = number_within(GREATEST_ID, id)? as u32;
    let order = number_within(GREATEST_ORDER, order)? as u32;
    let node = number_within(GREATEST_NODE, node)? as u32;
    Ok(PageAct::Near { id, order, node })
}

/// Reads `ID`, the only word of a `give` line after the first.
///
/// # Errors
///
/// - `Form`: the words don't have this form.
/// - `Number`: a number is malformed or above its limit.
fn give_line(text: &[u8]) -> Result<PageAct, ScriptLineFault>
    ensures value { result ≡ give_line (words_in separators.Script text.now) }
    ensures order { IfOk result HasValidOrder }
    ensures of_words { IfErr result IsWordFault }
{
    let id = number_within(GREATEST_ID, one_word(text)?)? as u32;
    Ok(PageAct::Give { id })
}
