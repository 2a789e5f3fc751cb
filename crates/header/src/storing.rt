// A header stored: always all of it, so that what is not in use is 0.
ghost use Rattle.std.specs.Prelude.{◌≡◌, ℕ, List};
ghost use Rattle.meaning.specs.Screen.{Cell};
ghost use Rattle.terminal.specs.Terms.{term_of, reading_of, numbers_of};
ghost use Rattle.header.specs.Header.{numbers_of_screen, numbers_of_parser, parameters_in, padded};
ghost use Rattle.header.specs.Outcomes.{Stored};

use terminal::state::{Parameters, Parser, Terminal};

fn screen_numbers(t: Terminal) -> [u64; 16]
    ensures { (rs : List (List Cell)) (a : List ℕ) → result ≡ numbers_of_screen (term_of t rs a) }
{
    [
        t.size.wide as u64,
        t.size.high as u64,
        t.cursor.row as u64,
        t.cursor.col as u64,
        u64::from(t.cursor.pending),
        u64::from(t.rendition),
        t.top as u64,
        t.bottom as u64,
        u64::from(t.modes.insert),
        u64::from(t.modes.autowrap),
        u64::from(t.modes.origin),
        u64::from(t.modes.visible),
        t.kept.row as u64,
        t.kept.col as u64,
        u64::from(t.kept.rendition),
        u64::from(t.kept.origin),
    ]
}

fn parser_numbers(p: Parser) -> [u64; 16]
    ensures { result ≡ numbers_of_parser (reading_of p) }
{
    let mut numbers = [0; 16];
    match p {
        Parser::Ground => {}
        Parser::Escape => numbers[0] = 1,
        Parser::Sequence(private, ps) => {
            numbers[0] = 2;
            numbers[1] = u64::from(private);
            numbers[2] = ps.count as u64;
            numbers[3] = u64::from(ps.begun.is_some());
            numbers[4] = u64::from(ps.begun.unwrap_or(0));
        }
        Parser::Ignored => numbers[0] = 3,
        Parser::Text => numbers[0] = 4,
        Parser::TextEnd => numbers[0] = 5,
    }
    numbers
}

fn padded_parameters(ps: Parameters) -> [u64; 32]
    ensures { result ≡ padded (numbers_of ps) }
{
    let mut numbers = [0; 32];
    for (k, n) in ps.list[..ps.count].iter().enumerate() {
        numbers[k] = u64::from(*n);
    }
    numbers
}

fn parameter_numbers(p: Parser) -> [u64; 32]
    ensures { result ≡ padded (parameters_in (reading_of p)) }
{
    match p {
        Parser::Sequence(_, ps) => padded_parameters(ps),
        _ => [0; 32],
    }
}

// Whether there are 64 numbers; if so they are the terminal's header now, and else they stay.
pub fn store(t: Terminal, header: &mut [u64]) -> bool
    ensures { Stored t header.old result header.new }
{
    if header.len() != 64 {
        return false;
    }
    header[0..16].copy_from_slice(&screen_numbers(t));
    header[16..32].copy_from_slice(&parser_numbers(t.parser));
    header[32..64].copy_from_slice(&parameter_numbers(t.parser));
    true
}
