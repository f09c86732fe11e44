//! The first step: the words after the program's name, read as a row of the grammar.

ghost use Rattle.std.specs.Prelude.{◌≡◌, ◌≤◌, length, map, string_bytes};
ghost use Rattle.bpsec_jobs.specs.Work.{word_at};
ghost use Rattle.bpsec_command.specs.Grammar.{bundle_rows, command_of, number_at, number_of, report_rows};
ghost use Rattle.bpsec_command.specs.Grammar as grammar;
ghost use Rattle.bpsec_command.specs.Rows.{slot_of, row_of, or_row, row_by_row};

use crate::command::Command;

/// What stands at a place of a line.
#[derive(Clone, Copy)]
pub(crate) enum Slot {
    /// This word.
    Exactly(&'static str),
    /// The name of a file: 1 to 255 bytes.
    Name,
    /// A decimal number of 64 bits, without leading zeros.
    Number,
}

/// A row of the grammar: what stands in its line, and the command that words of this line are.
#[derive(Clone, Copy)]
pub(crate) struct Row<'a> {
    pub slots: &'a [Slot],
    pub command: Command,
}

/// The number whose decimal digits these are, without leading zeros.
fn number_of(digits: &str) -> Option<u64>
    ensures { result ≡ number_of digits.now }
{
    bp_eid::number_of(digits)
}

/// Whether a word may stand there.
fn fits(slot: Slot, word: &str) -> bool
    ensures { result ≡ grammar.fits (slot_of slot) word.now }
{
    match slot {
        Slot::Exactly(text) => text == word,
        Slot::Name => 1 <= word.len() && word.len() <= 255,
        Slot::Number => number_of(word).is_some(),
    }
}

/// How many words from the front a line goes along with.
fn along(slots: &[Slot], words: &[String]) -> usize
    ensures count { result ≡ grammar.along (map slot_of slots.now) (map string_bytes words.now) }
    ensures within { result ≤ length words.now }
{
    let [slot, slots @ ..] = slots else {
        return 0;
    };
    let [word, words @ ..] = words else {
        return 0;
    };
    if !fits(*slot, word.as_str()) {
        return 0;
    }
    along(slots, words) + 1
}

/// Whether the words are this line, and how many of them it goes along with.
fn line(slots: &[Slot], words: &[String]) -> (bool, usize)
    ensures is { result.0 ≡ grammar.is_line (map slot_of slots.now) (map string_bytes words.now) }
    ensures along { result.1 ≡ grammar.along (map slot_of slots.now) (map string_bytes words.now) }
{
    let along = along(slots, words);
    (words.len() == slots.len() && along == slots.len(), along)
}

/// The word at a place of a line.
pub(crate) fn word(words: &[String], place: usize) -> &str
    ensures { result.now ≡ word_at place (map string_bytes words.now) }
{
    if place < words.len() {
        words[place].as_str()
    } else {
        ""
    }
}

/// The number at a place of a line.
fn number(words: &[String], place: usize) -> u64
    ensures { result ≡ number_at place (map string_bytes words.now) }
{
    number_of(word(words, place)).unwrap_or(0)
}

/// What the rows before gave, else the command of this row, else the most words that one of them goes along with.
#[tactic(auto, unfolding(crate::specs::Rows::or_row))]
fn or_row(before: Result<Command, u64>, row: &Row, words: &[String]) -> Result<Command, u64>
    ensures { result ≡ or_row (row_of row.now) (map string_bytes words.now) before }
{
    let Err(faulty) = before else {
        return before;
    };
    match line(row.slots, words) {
        (true, _) => Ok(row.command),
        (false, along) => Err(faulty.max(along as u64)),
    }
}

/// The rows tried one after the other.
fn row_by_row(rows: &[Row], words: &[String], before: Result<Command, u64>) -> Result<Command, u64>
    ensures { result ≡ row_by_row (map row_of rows.now) (map string_bytes words.now) before }
{
    let [row, rows @ ..] = rows else {
        return before;
    };
    row_by_row(rows, words, or_row(before, row, words))
}

/// The rows of the jobs that make bundles and texts.
fn bundle_rows(words: &[String], before: Result<Command, u64>) -> Result<Command, u64>
    ensures { result
        ≡ row_by_row (bundle_rows (map string_bytes words.now)) (map string_bytes words.now) before }
{
    let rows = [
        Row {
            slots: &[Slot::Exactly("check")],
            command: Command::Check,
        },
        Row {
            slots: &[Slot::Exactly("explain")],
            command: Command::Explain,
        },
        Row {
            slots: &[Slot::Exactly("build"), Slot::Exactly("--text"), Slot::Name],
            command: Command::Build,
        },
        Row {
            slots: &[
                Slot::Exactly("upgrade"),
                Slot::Exactly("--policy"),
                Slot::Name,
            ],
            command: Command::Upgrade,
        },
        Row {
            slots: &[
                Slot::Exactly("secure"),
                Slot::Exactly("--plan"),
                Slot::Name,
                Slot::Exactly("--keys"),
                Slot::Name,
            ],
            command: Command::Secure,
        },
        Row {
            slots: &[
                Slot::Exactly("fragment"),
                Slot::Exactly("--size"),
                Slot::Number,
            ],
            command: Command::Fragment {
                size: number(words, 2),
            },
        },
        Row {
            slots: &[Slot::Exactly("reassemble")],
            command: Command::Reassemble,
        },
        Row {
            slots: &[
                Slot::Exactly("node"),
                Slot::Exactly("--policy"),
                Slot::Name,
                Slot::Exactly("--keys"),
                Slot::Name,
                Slot::Exactly("--order"),
                Slot::Number,
            ],
            command: Command::Node {
                order: number(words, 6),
            },
        },
    ];
    row_by_row(&rows, words, before)
}

/// The rows of those that report, and of what the program says of itself.
fn report_rows(words: &[String], before: Result<Command, u64>) -> Result<Command, u64>
    ensures { result
        ≡ row_by_row (report_rows (map string_bytes words.now)) (map string_bytes words.now) before }
{
    let rows = [
        Row {
            slots: &[
                Slot::Exactly("status"),
                Slot::Exactly("--policy"),
                Slot::Name,
                Slot::Exactly("--keys"),
                Slot::Name,
                Slot::Exactly("--order"),
                Slot::Number,
                Slot::Exactly("--time"),
                Slot::Number,
                Slot::Exactly("--sequence"),
                Slot::Number,
            ],
            command: Command::Status {
                order: number(words, 6),
                time: number(words, 8),
                sequence: number(words, 10),
            },
        },
        Row {
            slots: &[
                Slot::Exactly("audit"),
                Slot::Exactly("--policy"),
                Slot::Name,
                Slot::Exactly("--keys"),
                Slot::Name,
            ],
            command: Command::AuditPolicy,
        },
        Row {
            slots: &[
                Slot::Exactly("audit"),
                Slot::Exactly("--plan"),
                Slot::Name,
                Slot::Exactly("--keys"),
                Slot::Name,
            ],
            command: Command::AuditPlan,
        },
        Row {
            slots: &[Slot::Exactly("--help")],
            command: Command::Help,
        },
        Row {
            slots: &[Slot::Exactly("--version")],
            command: Command::Version,
        },
    ];
    row_by_row(&rows, words, before)
}

/// The command of the row that the words are, or the index of the faulty word.
pub fn read_words(words: &[String]) -> Result<Command, u64>
    ensures { result ≡ command_of (map string_bytes words.now) }
{
    report_rows(words, bundle_rows(words, Err(0)))
}
