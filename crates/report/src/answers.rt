// The report's first line, by the run's answer.
ghost use Rattle.lingua.specs.Answers.{run_meaning};
ghost use Rattle.text.specs.Appended.{Appended};
ghost use Rattle.report.specs.Call.{answer_text};

use lingua::errors::NO_ERROR;
use lingua::{RunAnswer, RunEnd};
use text::page::Page;
use text::report::{put_end_line, put_refused_line};

// document 01: end
const FINISHED: u8 = 0;

const FAILED: u8 = 1;

const OUT: u8 = 2;
// document 01: place, with no error
const NO_PLACE: u16 = 0;

#[tactic(auto, unfolding(crate::specs::Call::answer_text, lingua::specs::Answers::run_meaning))]
pub(crate) fn put_answer(answer: RunAnswer, page: &mut Page<'_>)
    ensures { Appended page.old (answer_text (run_meaning answer)) page.new }
{
    match answer {
        Err(refusal) => put_refused_line(page, refusal.number()),
        Ok(RunEnd::Finished { steps }) => put_end_line(page, FINISHED, NO_ERROR, NO_PLACE, steps),
        Ok(RunEnd::Failed { at, steps }) => {
            put_end_line(page, FAILED, at.error.number(), at.place, steps)
        }
        Ok(
            RunEnd::Out {
                recorded: Some(at),
                steps,
            },
        ) => put_end_line(page, OUT, at.error.number(), at.place, steps),
        Ok(
            RunEnd::Out {
                recorded: None,
                steps,
            },
        ) => put_end_line(page, OUT, NO_ERROR, NO_PLACE, steps),
    }
}
