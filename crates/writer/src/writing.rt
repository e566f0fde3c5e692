// A block's text. What is past the output's end is counted and not stored, so the same functions say how long a text is.
ghost use Rattle.std.specs.Prelude.{◌≡◌, ◌++◌, [], ◌∷◌, map, ◌+◌, ◌<◌, pos, nat_abs, length, set, get_or, drop};
ghost use Rattle.words.specs.Outcomes.{outcome};
ghost use Rattle.words.specs.Words.{negative};
ghost use Rattle.formula.specs.Limits.{limits};
ghost use Rattle.formula.specs.Formula.{clauses_from};
ghost use Rattle.formula.specs.Block.{refusal};
ghost use Rattle.grammar.specs.Grammar.{space};
ghost use Rattle.grammar.specs.Written.{numeral, literal as literalOf, line, problem_line, group_lines, clause_lines};
ghost use Rattle.writer.specs.Write.{last_of_group, groups_of, written_of};
ghost use Rattle.writer.specs.Inner.Writing.{wrote, Near, spaced, sign_of, line_start, line_end, group_word};

use formula::Clauses;

// A byte at its place, if the output goes so far.
fn store(output: &mut [u8], at: usize, byte: u8)
    ensures { output.new ≡ set output.old at byte }
{
    if at < output.len() {
        output[at] = byte;
    }
}

// Each of these writes from a place on, and answers the place after what it wrote.
#[tactic(auto, unfolding(crate::specs::Inner::Writing::wrote, crate::specs::Inner::Writing::Near))]
fn put(output: &mut [u8], at: usize, bytes: &[u8]) -> usize
    requires { Near at bytes.now }
    ensures { outcome result output.new ≡ wrote output.old at bytes.now }
{
    for (i, b) in bytes.iter().enumerate() {
        store(output, at + i, *b);
    }
    at + bytes.len()
}

// From the last digit to the first: the rest of the number is a tenth each time. No number has more than twenty digits.
// A while, since it ends where the number does, and not where the places do.
fn number(output: &mut [u8], at: usize, n: usize) -> usize
    requires { Near at (numeral n) }
    ensures { outcome result output.new ≡ wrote output.old at (numeral n) }
{
    let mut digits = [0; 20];
    let mut first = digits.len() - 1;
    let mut rest = n;
    while 9 < rest {
        digits[first] = b'0' + (rest % 10) as u8;
        first -= 1;
        rest /= 10;
    }
    digits[first] = b'0' + rest as u8;
    put(output, at, &digits[first..])
}

fn number_spaced(output: &mut [u8], at: usize, n: usize) -> usize
    requires { Near at (spaced n) }
    ensures { outcome result output.new ≡ wrote output.old at (spaced n) }
{
    let end = number(output, at, n);
    put(output, end, b" ")
}

#[tactic(auto, using(crate::proofs::Laws::Writing::nothing))]
fn sign(output: &mut [u8], at: usize, negative: bool) -> usize
    requires { Near at (sign_of negative) }
    ensures { outcome result output.new ≡ wrote output.old at (sign_of negative) }
{
    if negative { put(output, at, b"-") } else { at }
}

fn literal(output: &mut [u8], at: usize, word: i32) -> usize
    requires { Near at (literalOf word ++ (space ∷ [])) }
    ensures { outcome result output.new ≡ wrote output.old at (literalOf word ++ (space ∷ [])) }
{
    let first = sign(output, at, words::negative(word));
    number_spaced(output, first, words::size(word))
}

#[tactic(auto, using(crate::proofs::Laws::Writing::nothing))]
fn line_end(output: &mut [u8], at: usize, last: bool) -> usize
    requires { Near at (line_end last) }
    ensures { outcome result output.new ≡ wrote output.old at (line_end last) }
{
    if last { put(output, at, b"0\n") } else { at }
}

fn clause_line(output: &mut [u8], from: usize, clause: &[i32]) -> usize
    requires { Near from (line (map literalOf clause.now)) }
    ensures { outcome result output.new ≡ wrote output.old from (line (map literalOf clause.now)) }
{
    let mut at = from;
    for word in clause {
        at = literal(output, at, *word);
    }
    line_end(output, at, true)
}

fn clause_lines(output: &mut [u8], from: usize, ends: &[i32], literals: &[i32]) -> usize
    requires { Near from (clause_lines (clauses_from literals.now 0 ends.now)) }
    ensures { outcome result output.new ≡ wrote output.old from (clause_lines (clauses_from literals.now 0 ends.now)) }
{
    let mut at = from;
    for clause in Clauses::of(ends, literals) {
        at = clause_line(output, at, clause);
    }
    at
}

#[tactic(auto, using(crate::proofs::Laws::Writing::nothing))]
fn line_start(output: &mut [u8], at: usize, new: bool, universal: bool) -> usize
    requires { Near at (line_start new universal) }
    ensures { outcome result output.new ≡ wrote output.old at (line_start new universal) }
{
    if new {
        put(output, at, if universal { b"a " } else { b"e " })
    } else {
        at
    }
}

// Whether the word at i is the last of its group.
fn is_last(prefix: &[i32], i: usize) -> bool
    requires { i < length prefix.now }
    ensures { result ≡ last_of_group (get_or prefix.now i (pos 0)) (drop (i + 1) prefix.now) }
{
    match prefix.get(i + 1) {
        Some(next) => words::negative(prefix[i]) != words::negative(*next),
        None => true,
    }
}

// A word of the prefix, as the first of its group or not, as the last of it or not.
fn group_word(output: &mut [u8], at: usize, new: bool, word: i32, last: bool) -> usize
    requires { Near at (group_word new (negative word) last (nat_abs word)) }
    ensures { outcome result output.new ≡ wrote output.old at (group_word new (negative word) last (nat_abs word)) }
{
    let first = line_start(output, at, new, words::negative(word));
    let end = number_spaced(output, first, words::size(word));
    line_end(output, end, last)
}

fn group_lines(output: &mut [u8], from: usize, prefix: &[i32]) -> usize
    requires { Near from (group_lines (groups_of prefix.now)) }
    ensures { outcome result output.new ≡ wrote output.old from (group_lines (groups_of prefix.now)) }
{
    let mut at = from;
    let mut new = true;
    for (i, word) in prefix.iter().enumerate() {
        let last = is_last(prefix, i);
        at = group_word(output, at, new, *word, last);
        new = last;
    }
    at
}

fn problem_line(output: &mut [u8], v: usize, c: usize) -> usize
    requires { Near 0 (problem_line v c) }
    ensures { outcome result output.new ≡ wrote output.old 0 (problem_line v c) }
{
    let first = put(output, 0, b"p cnf ");
    let second = number_spaced(output, first, v);
    let end = number(output, second, c);
    put(output, end, b"\n")
}

pub(crate) fn text(output: &mut [u8], block: &[i32]) -> usize
    requires { refusal limits block.now ≡ 0 }
    ensures { outcome result output.new ≡ wrote output.old 0 (written_of block.now) }
{
    let prefix = formula::prefix(block);
    let ends = formula::ends(block);
    let first = problem_line(output, prefix.len(), ends.len());
    let second = group_lines(output, first, prefix);
    clause_lines(output, second, ends, formula::literals(block))
}
