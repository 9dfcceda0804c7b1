// Laws of friendly assembly. The functions here do nothing: their contracts are the laws.
ghost use Rattle.std.specs.Prelude.{◌≡◌, ◌++◌, [], false, true, List, ℕ, map};
ghost use Rattle.std.specs.List.{AllByRecursion, flat_map, join_with_byte};
ghost use Rattle.tool_texts.specs.Reports.{reports_text};
ghost use Rattle.friendly_assembly.specs.PlainLine.{plain_line};
ghost use Rattle.friendly_assembly.specs.PlainSources.{HasNoForm};
ghost use Rattle.friendly_assembly.specs.PlainText.{after_lines, friendly_told, has_open_line, lines_of, names_in, reports_in};
ghost use Rattle.friendly_assembly.specs.Strings.{string_lines};

/// A text none of whose lines has one of the forms stays as it is, byte for byte.
pub fn plain_law()
    ensures { (name text : List ℕ) → AllByRecursion HasNoForm (lines_of text) →
        friendly_told name text ≡ record { is_wrong = false; bytes = text } }
{}

/// Where nothing is wrong, each line becomes what it becomes by itself, by the names that the text defines, and after the lines are those of
/// the strings, in their order. Where something is wrong, nothing but that is said.
pub fn line_law()
    ensures made { (name text : List ℕ) → reports_in (lines_of text) ≡ [] →
        friendly_told name text ≡ record {
          is_wrong = false;
          bytes = join_with_byte 10 (map (plain_line (names_in (lines_of text))) (lines_of text))
              ++ after_lines (has_open_line text) (flat_map string_lines (lines_of text));
        } }
    ensures wrong { (name text : List ℕ) → (friendly_told name text).is_wrong ≡ true →
        (friendly_told name text).bytes ≡ reports_text name (reports_in (lines_of text)) }
{}
