//! What a line asks for, by its words.

ghost use Rattle.std.specs.Prelude.{◌≡◌};
ghost use Rattle.line_words.specs.Answers.{Gives};
ghost use Rattle.meter_lines_spec.specs.Lines.{word_named, asked_by, line_of};

use line_words::{LineRefusal, LineWords};
use meter_lines_spec::{MAX_COUNT, MAX_TICKS, MeterLine, Word};
use meter_spec::Command;
use script_spec::MAX_ATTRIBUTE;

/// What a line of these words asks for.
#[tactic(auto, unfolding(meter_lines_spec::specs::Lines::line_of))]
pub(crate) fn line_of(mut words: LineWords<'_>) -> Result<MeterLine, LineRefusal>
    ensures value { Gives (λ line. line) result (line_of words.entry) }
{
    let first = words.word()?;
    let Some(word) = word_named(first) else {
        return Err(LineRefusal::WORD);
    };
    match word {
        Word::Create => create_line(&mut words),
        Word::Delete => delete_line(&mut words),
        Word::Get => get_line(&mut words),
        Word::Current => current_line(&mut words),
        Word::Sync => sync_line(&words),
        Word::Count => count_line(&mut words),
        Word::Tick => tick_line(&mut words),
    }
}

/// The word that a line begins with.
fn word_named(word: &[u8]) -> Option<Word>
    ensures value { result ≡ word_named word.now }
{
    match word {
        b"create" => Some(Word::Create),
        b"delete" => Some(Word::Delete),
        b"get" => Some(Word::Get),
        b"current" => Some(Word::Current),
        b"sync" => Some(Word::Sync),
        b"count" => Some(Word::Count),
        b"tick" => Some(Word::Tick),
        _ => None,
    }
}

/// The words after `create`: INSTANCE.
#[tactic(auto, unfolding(meter_lines_spec::specs::Lines::asked_by))]
fn create_line(words: &mut LineWords<'_>) -> Result<MeterLine, LineRefusal>
    ensures value { Gives (λ line. line) result (asked_by Word.Create words.old) }
{
    words.expect(1)?;
    Ok(MeterLine::Request {
        command: Command::Create,
        instance: words.id()?,
        mask: 0,
    })
}

/// The words after `delete`: INSTANCE.
#[tactic(auto, unfolding(meter_lines_spec::specs::Lines::asked_by))]
fn delete_line(words: &mut LineWords<'_>) -> Result<MeterLine, LineRefusal>
    ensures value { Gives (λ line. line) result (asked_by Word.Delete words.old) }
{
    words.expect(1)?;
    Ok(MeterLine::Request {
        command: Command::Delete,
        instance: words.id()?,
        mask: 0,
    })
}

/// The words after `get`: INSTANCE MASK.
#[tactic(auto, unfolding(meter_lines_spec::specs::Lines::asked_by))]
fn get_line(words: &mut LineWords<'_>) -> Result<MeterLine, LineRefusal>
    ensures value { Gives (λ line. line) result (asked_by Word.Get words.old) }
{
    words.expect(2)?;
    Ok(MeterLine::Request {
        command: Command::Get,
        instance: words.id()?,
        mask: words.mask()?,
    })
}

/// The words after `current`: INSTANCE MASK.
#[tactic(auto, unfolding(meter_lines_spec::specs::Lines::asked_by))]
fn current_line(words: &mut LineWords<'_>) -> Result<MeterLine, LineRefusal>
    ensures value { Gives (λ line. line) result (asked_by Word.Current words.old) }
{
    words.expect(2)?;
    Ok(MeterLine::Request {
        command: Command::GetCurrent,
        instance: words.id()?,
        mask: words.mask()?,
    })
}

/// No words after `sync`.
#[tactic(auto, unfolding(meter_lines_spec::specs::Lines::asked_by))]
fn sync_line(words: &LineWords<'_>) -> Result<MeterLine, LineRefusal>
    ensures value { Gives (λ line. line) result (asked_by Word.Sync words.now) }
{
    words.expect(0)?;
    Ok(MeterLine::Request {
        command: Command::SynchronizeTime,
        instance: 0,
        mask: 0,
    })
}

/// The words after `count`: INSTANCE ATTRIBUTE N.
#[tactic(auto, unfolding(meter_lines_spec::specs::Lines::asked_by))]
fn count_line(words: &mut LineWords<'_>) -> Result<MeterLine, LineRefusal>
    ensures value { Gives (λ line. line) result (asked_by Word.Count words.old) }
{
    words.expect(3)?;
    Ok(MeterLine::Count {
        instance: words.id()?,
        attribute: words.number(1, MAX_ATTRIBUTE)? as u8,
        n: words.number(0, MAX_COUNT)? as u32,
    })
}

/// The words after `tick`: TICKS.
#[tactic(auto, unfolding(meter_lines_spec::specs::Lines::asked_by))]
fn tick_line(words: &mut LineWords<'_>) -> Result<MeterLine, LineRefusal>
    ensures value { Gives (λ line. line) result (asked_by Word.Tick words.old) }
{
    words.expect(1)?;
    Ok(MeterLine::Pass {
        ticks: words.number(1, MAX_TICKS)? as u32,
    })
}
