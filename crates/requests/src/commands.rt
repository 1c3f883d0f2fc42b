// The words of the console, and what follows each: a table of forms.
ghost use Rattle.std.specs.Prelude.{◌≡◌, true};
ghost use Rattle.requests.specs.Commands.{operation_forms, first_forms, second_forms, no_form, form_from, differ, entries_of, mode_of, without_target, form_by};

use crate::wholes::Member;

// The kinds of operations.
#[derive(Clone, Copy, PartialEq, Eq)]
pub enum Kind {
    Product,
    Inverse,
    Converse,
    Transpose,
    Submatrix,
    Schur,
}

// How an operation is asked for: directly, or with a word in front of its own.
#[derive(Clone, Copy, PartialEq, Eq)]
pub enum Mode {
    Direct,
    // `forecast`.
    Foretold,
}

#[derive(Clone, Copy, PartialEq, Eq)]
pub enum Command {
    Load,
    Write,
    Length,
    Drop,
    Operation { mode: Mode, kind: Kind },
    // An operation whose sources are a list.
    Recipe(Mode),
    Build,
    Minor,
    Carry,
    Reversals,
    Add,
    Multiply,
    Divide,
    Rest,
    Sentence,
    Show,
}

// What a number of a request is.
#[derive(Clone, Copy, PartialEq, Eq)]
pub enum Letter {
    // A place, or another number of 32 bits.
    Place,
    Mask,
    // A length to lend.
    Length,
    // No number.
    None,
}

// What stands behind the numbers of a request.
#[derive(Clone, Copy, PartialEq, Eq)]
pub enum Tail {
    None,
    Bytes,
    Items,
    // Exactly two items.
    Two,
    // At most 16 whole numbers.
    Wholes(Member),
}

// A command, the letters of its numbers, and what stands behind them.
#[derive(Clone, Copy)]
pub struct Form {
    pub command: Command,
    pub letters: [Letter; 4],
    pub tail: Tail,
}

// A word of the console, its command, the letters of its numbers, and what stands behind them.
type Entry = (&'static [u8], Command, [Letter; 4], Tail);

// The letters as the tables have them.
const P: Letter = Letter::Place;

const M: Letter = Letter::Mask;

const C: Letter = Letter::Length;

const O: Letter = Letter::None;

// The form of a word in a table, whose words differ.
fn form_in(table: &[Entry], word: &[u8]) -> Option<Form>
    requires { differ (entries_of table.now) ≡ true }
    ensures { result ≡ form_from word.now (entries_of table.now) no_form }
{
    let &(_, command, letters, tail) = table.iter().find(|entry| check::same(word, entry.0))?;
    Some(Form {
        command,
        letters,
        tail,
    })
}

// An operation's command. Written out in the table, each would take four lines.
fn operation(mode: Mode, kind: Kind) -> Command
    ensures { result ≡ Command.Operation mode kind }
{
    Command::Operation { mode, kind }
}

// The last number of an operation is its target.
fn operation_form(mode: Mode, word: &[u8]) -> Option<Form>
    ensures { result ≡ form_from word.now (operation_forms mode) no_form }
{
    let product = operation(mode, Kind::Product);
    let inverse = operation(mode, Kind::Inverse);
    let converse = operation(mode, Kind::Converse);
    let transpose = operation(mode, Kind::Transpose);
    let submatrix = operation(mode, Kind::Submatrix);
    let schur = operation(mode, Kind::Schur);
    let steps = Tail::Wholes(Member::Step);
    let table: [Entry; 7] = [
        (b"product", product, [P, P, O, P], Tail::None),
        (b"inverse", inverse, [P, O, O, P], Tail::None),
        (b"converse", converse, [P, O, O, P], Tail::None),
        (b"transpose", transpose, [P, O, O, P], Tail::None),
        (b"submatrix", submatrix, [P, M, M, P], Tail::None),
        (b"schur", schur, [P, P, O, P], Tail::None),
        (b"recipe", Command::Recipe(mode), [O, O, O, P], steps),
    ];
    form_in(&table, word)
}

// The other words.
const OTHERS: [Entry; 14] = [
    (b"load", Command::Load, [P, O, O, O], Tail::Bytes),
    (b"write", Command::Write, [P, C, O, O], Tail::None),
    (b"length", Command::Length, [P, O, O, O], Tail::None),
    (b"drop", Command::Drop, [P, O, O, O], Tail::None),
    (
        b"build",
        Command::Build,
        [P, O, O, O],
        Tail::Wholes(Member::Stamp),
    ),
    (b"minor", Command::Minor, [P, M, M, O], Tail::None),
    (b"carry", Command::Carry, [P, C, O, O], Tail::Items),
    (b"reversals", Command::Reversals, [O; 4], Tail::Items),
    (b"add", Command::Add, [O; 4], Tail::Two),
    (b"multiply", Command::Multiply, [O; 4], Tail::Two),
    (b"divide", Command::Divide, [O; 4], Tail::Two),
    (b"rest", Command::Rest, [O; 4], Tail::Bytes),
    (
        b"sentence",
        Command::Sentence,
        [C, P, P, O],
        Tail::Wholes(Member::Place),
    ),
    (b"show", Command::Show, [P, O, O, O], Tail::None),
];

fn other_form(word: &[u8]) -> Option<Form>
    ensures { result ≡ form_from word.now second_forms (form_from word.now first_forms no_form) }
{
    form_in(&OTHERS, word)
}

// How an operation is asked for, by the first word of a line.
pub fn mode_of(word: &[u8]) -> Mode
    ensures { result ≡ mode_of word.now }
{
    if check::same(word, b"forecast") {
        return Mode::Foretold;
    }
    Mode::Direct
}

fn without_target(form: Form) -> Form
    ensures { result ≡ without_target form }
{
    let mut letters = form.letters;
    letters[3] = O;
    Form { letters, ..form }
}

// The form that a word names: any, or behind a word in front an operation's.
pub fn form_by(mode: Mode, word: &[u8]) -> Option<Form>
    ensures { result ≡ form_by mode word.now }
{
    let operation = operation_form(mode, word);
    match mode {
        Mode::Direct => other_form(word).or(operation),
        Mode::Foretold => Some(without_target(operation?)),
    }
}
