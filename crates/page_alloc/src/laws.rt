//! The law of lines: each line is read as what its words spell, and no other line is accepted.

ghost use Rattle.std.specs.Prelude.{◌≡◌, ◌↔◌, ℕ, Bool, List, Some, None, Ok, Err};
ghost use Rattle.text_words.specs.Spelling.{HasWords};
ghost use Rattle.text_words.specs.declared.separators.Separators.TheVariants.{Script};
ghost use Rattle.script_reader.specs.declared.fault.ScriptLineFault.{ScriptLineFault as AnyWrong};
ghost use Rattle.script_reader.specs.Numbers.{Words};
ghost use Rattle.script_reader.specs.Lines.{read_line};
ghost use Rattle.script_reader.specs.Grammar.{HasNoCommand, SpellsNumbers, NeverFails, HasWordsFault};
ghost use Rattle.page_alloc.specs.declared.act.PageAct.{PageAct as AnyAct};
ghost use Rattle.page_alloc.specs.Reading.{page_lines};
ghost use Rattle.page_alloc.specs.Spelling.{page_grammar};

/// Law: a line of a page script is read as a command exactly if its words spell that command. It is
/// read as a line without a command exactly if it has no words or is a comment. It is read as
/// faulty exactly if its words break a condition of the grammar; the fault is the first one that
/// they break.
pub fn page_lines_are_read_as_spelled()
    ensures act { (seen : Bool) (text : List ℕ) (words : Words) (act : AnyAct) →
        HasWords Script text words →
        ((read_line page_lines seen text ≡ Ok (Some act)) ↔ SpellsNumbers page_grammar words act) }
    ensures nothing { (seen : Bool) (text : List ℕ) (words : Words) →
        HasWords Script text words →
        ((read_line page_lines seen text ≡ Ok None) ↔ HasNoCommand words) }
    ensures fault { (seen : Bool) (text : List ℕ) (words : Words) (wrong : AnyWrong) →
        HasWords Script text words →
        ((read_line page_lines seen text ≡ Err wrong)
        ↔ HasWordsFault page_grammar NeverFails words wrong) }
{}
