// The second look at the files of a command, after it has ended.
use crate::text::index;
use crate::words::CommandForm;
use astc_run::{JoinFault, MoreOutcome, Outcome};
use file_sights::{Look, Looker, Sight};

/// The findings for the word at a place.
#[derive(Clone, Copy)]
pub struct SeenWord {
    pub place: usize,
    pub sight: Sight,
}

/// Which words of a command name the files that an end is about.
#[derive(Clone, Copy)]
enum Aim {
    Nothing,
    /// The words from the first place to before the second.
    Inputs(usize, usize),
    Output(usize),
}

fn input_at(place: usize) -> Aim {
    Aim::Inputs(place, place.saturating_add(1))
}

fn all_inputs(form: CommandForm, words: usize) -> Aim {
    match form {
        CommandForm::Audit | CommandForm::Polish => Aim::Inputs(1, 3),
        CommandForm::Join => Aim::Inputs(2, words),
        CommandForm::Trial => Aim::Nothing,
        _ => Aim::Inputs(1, 2),
    }
}

fn output_of(form: CommandForm) -> Aim {
    match form.output() {
        Some(place) => Aim::Output(place),
        None => Aim::Nothing,
    }
}

fn aim_of_common(form: CommandForm, words: usize, outcome: &Outcome) -> Aim {
    match outcome {
        Outcome::ReadFault => all_inputs(form, words),
        Outcome::WriteFault => output_of(form),
        Outcome::Image(_) => input_at(if form == CommandForm::Audit { 2 } else { 1 }),
        Outcome::Ktx(_) => input_at(if form == CommandForm::Polish { 2 } else { 1 }),
        Outcome::Astc(_) | Outcome::Source(_) | Outcome::Absent(_) => input_at(1),
        Outcome::Done => match form.output() {
            Some(place) => input_at(place),
            None => Aim::Nothing,
        },
        _ => Aim::Nothing,
    }
}

fn aim_of_join(fault: &JoinFault) -> Aim {
    match fault {
        JoinFault::NoPart(place, _)
        | JoinFault::OtherTexture(place)
        | JoinFault::SamePlace(place, _) => input_at(index(*place)),
        JoinFault::MissingPlace(_) => Aim::Nothing,
    }
}

fn aim_of(words: &[String], outcome: &MoreOutcome) -> Aim {
    match (CommandForm::of(words), outcome) {
        (Some(form), MoreOutcome::Common(outcome)) => aim_of_common(form, words.len(), outcome),
        (Some(_), MoreOutcome::Parts(fault)) => aim_of_join(fault),
        (None, _) => Aim::Nothing,
    }
}

// Looks at files from the first on, up to an unreadable one. If all are readable, the result is
// that of the first.
fn look_at_inputs<L: Looker>(looker: &L, words: &[String], first: usize, end: usize) -> SeenWord {
    let mut seen = nothing();
    for place in first..end {
        let Some(word) = words.get(place) else {
            return seen;
        };
        let sight = looker.input(word.as_str());
        if sight.look != Look::Readable {
            return SeenWord { place, sight };
        }
        if seen.sight.look == Look::Unseen {
            seen = SeenWord { place, sight };
        }
    }
    seen
}

fn nothing() -> SeenWord {
    SeenWord {
        place: 0,
        sight: Sight::without_bytes(Look::Unseen),
    }
}

// The reason why an output failed: the result of a look, or, if that shows no obstacle, the result
// noted at the failure.
fn reason_for(look: Look, noted: Look) -> Look {
    match (look, noted) {
        (_, Look::Unseen | Look::Missing | Look::Refused) => look,
        (Look::Writable | Look::Uncreated | Look::Sink, _) => noted,
        _ => look,
    }
}

/// Looks again at the files that an end concerns. The system's message for a failed write may be
/// noted, else it is `Unseen`.
pub fn look_again<L: Looker>(
    looker: &L,
    words: &[String],
    outcome: &MoreOutcome,
    noted: Look,
) -> SeenWord {
    match aim_of(words, outcome) {
        Aim::Nothing => nothing(),
        Aim::Inputs(first, end) => look_at_inputs(looker, words, first, end),
        Aim::Output(place) => match words.get(place) {
            Some(word) => SeenWord {
                place,
                sight: Sight::without_bytes(reason_for(looker.output(word.as_str()), noted)),
            },
            None => nothing(),
        },
    }
}
