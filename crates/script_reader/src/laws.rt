//! The laws of lines and of whole scripts: the reader accepts exactly what the grammar allows, and
//! reads it with the grammar's meaning.

ghost use Rattle.std.specs.Prelude.{◌≡◌, ◌↔◌, ℕ, Bool, false, List, [], Some, None, Ok, Err};
ghost use Rattle.text_words.specs.Parts.{parts_in};
ghost use Rattle.text_words.specs.Spelling.{HasWords};
ghost use Rattle.text_words.specs.declared.separators.Separators.TheVariants.{Script, Byte};
ghost use Rattle.script_reader.specs.declared.act.Act.{Act as AnyAct};
ghost use Rattle.script_reader.specs.declared.act.Act.TheVariants as acts;
ghost use Rattle.script_reader.specs.declared.act.Line.{Line as AnyLine};
ghost use Rattle.script_reader.specs.declared.fault.ScriptLineFault.{ScriptLineFault as AnyWrong};
ghost use Rattle.script_reader.specs.declared.fault.ScriptFault.{ScriptFault as AnyFault};
ghost use Rattle.script_reader.specs.Numbers.{Words};
ghost use Rattle.script_reader.specs.Lines.{read_line};
ghost use Rattle.script_reader.specs.Script.{script_lines, script_of};
ghost use Rattle.script_reader.specs.Grammar.{HasNoCommand, HasWordsFault};
ghost use Rattle.script_reader.specs.Spelling.{script_grammar, SpellsAct, Fails};
ghost use Rattle.script_reader.specs.ScriptSpelling.{LinesHaveActs, IsFirstLineFault};

/// Law: the text of a line can be split into words in exactly one way.
pub fn each_line_has_its_words()
    ensures some { (text : List ℕ) → (words : Words) × HasWords Script text words }
    ensures one { (text : List ℕ) (words others : Words) →
        HasWords Script text words → HasWords Script text others → words ≡ others }
{}

/// Law: a line is read as a command exactly if its words follow the grammar of that command, and it
/// isn't a second `sections`. It is read as a line without a command exactly if it has no words or
/// is a comment. Any other line has a fault: that of the first condition of the grammar that its
/// words break.
pub fn lines_of_spelling()
    ensures act { (seen : Bool) (text : List ℕ) (words : Words) (act : AnyAct) →
        HasWords Script text words →
        ((read_line script_lines seen text ≡ Ok (Some act))
        ↔ (SpellsAct words act × (act ≡ acts.Sections → seen ≡ false))) }
    ensures nothing { (seen : Bool) (text : List ℕ) (words : Words) →
        HasWords Script text words →
        ((read_line script_lines seen text ≡ Ok None) ↔ HasNoCommand words) }
    ensures fault { (seen : Bool) (text : List ℕ) (words : Words) (wrong : AnyWrong) →
        HasWords Script text words →
        ((read_line script_lines seen text ≡ Err wrong)
        ↔ HasWordsFault script_grammar (Fails seen) words wrong) }
{}

/// Law: reading a script gives exactly the commands of its lines, each with the number of its
/// line. Lines without a command are left out. A script is refused exactly if some line has a
/// fault, with the fault of the lowest such line.
pub fn scripts_of_spelling()
    ensures lines { (bytes : List ℕ) (lines : List AnyLine) →
        ((script_of bytes ≡ Ok lines) ↔ LinesHaveActs [] (parts_in (Byte 10) bytes) lines) }
    ensures fault { (bytes : List ℕ) (fault : AnyFault) →
        ((script_of bytes ≡ Err fault) ↔ IsFirstLineFault [] (parts_in (Byte 10) bytes) fault) }
{}
