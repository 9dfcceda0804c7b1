// Laws of what expressions are worth. The functions do nothing: their contracts are the laws.
ghost use Rattle.std.specs.Prelude.{◌≡◌, ◌<◌, ◌^◌, ℕ, ℤ, pos, negsuc, List, codes, Option, Ok, Err};
ghost use Rattle.std.specs.List.{All, flat_map};
ghost use Rattle.lab_marks.specs.declared.wrongs.Wrong.TheVariants.{DivisionByZero, OpenParenthesis};
ghost use Rattle.lab_marks.specs.Expressions.{value_of};
ghost use Rattle.lab_marks.specs.Grammar.{AsSum, Expression, Enclosed, Number, Say, worth};
ghost use Rattle.lab_marks.specs.Arithmetic.{number_worth};
ghost use Rattle.lab_marks.specs.Plans.{AsIs, printed, shown};
ghost use Rattle.lab_marks.specs.Tokens.{tokens_of};

/// A text whose tokens say an expression is worth what the expression is worth, or has the same thing wrong in it. And only such a
/// text is worth something. So a number is worth itself, and an expression in parentheses is worth what it is worth without them.
pub fn expression_law()
    ensures said { (known : List ℕ → Option ℤ) (text : List ℕ) (e : Expression) →
        Say AsSum e (tokens_of text) → value_of known text ≡ worth known e }
    ensures converse { (known : List ℕ → Option ℤ) (text : List ℕ) (v : ℤ) →
        value_of known text ≡ Ok v → (e : Expression) × Say AsSum e (tokens_of text) }
    ensures number { (known : List ℕ → Option ℤ) (text digits : List ℕ) →
        Say AsSum (Number digits) (tokens_of text) → value_of known text ≡ number_worth digits }
    ensures enclosed { (known : List ℕ → Option ℤ) (text other : List ℕ) (e : Expression) →
        Say AsSum e (tokens_of text) → Say AsSum (Enclosed e) (tokens_of other)
        → value_of known other ≡ value_of known text }
{}

/// How expressions group, by examples: products before sums, from the left, and quotients toward zero.
pub fn grouping_law()
    ensures product_after { (known : List ℕ → Option ℤ) → value_of known (codes "2 + 3 * 4") ≡ Ok (pos 14) }
    ensures product_before { (known : List ℕ → Option ℤ) → value_of known (codes "2*3+4") ≡ Ok (pos 10) }
    ensures enclosed { (known : List ℕ → Option ℤ) → value_of known (codes "(2 + 3) * 4") ≡ Ok (pos 20) }
    ensures sums { (known : List ℕ → Option ℤ) → value_of known (codes "10 - 4 - 3") ≡ Ok (pos 3) }
    ensures quotients { (known : List ℕ → Option ℤ) → value_of known (codes "7 / 2 * 2") ≡ Ok (pos 6) }
    ensures toward_zero { (known : List ℕ → Option ℤ) → value_of known (codes "(0 - 7) / 2") ≡ Ok (negsuc 2) }
    ensures remainder { (known : List ℕ → Option ℤ) → value_of known (codes "(0 - 7) % 4") ≡ Ok (negsuc 2) }
    ensures zero { (known : List ℕ → Option ℤ) → value_of known (codes "1 / (2 - 2)") ≡ Err DivisionByZero }
    ensures no_end { (known : List ℕ → Option ℤ) → value_of known (codes "(1 + 2") ≡ Err OpenParenthesis }
{}

/// `printf` makes the bytes of a line of the plan by its `%b`, whatever they are.
pub fn plan_law()
    ensures { (bytes : List ℕ) → All (λ byte. byte < 2 ^ 8) bytes → printed AsIs (flat_map shown bytes) ≡ bytes }
{}
