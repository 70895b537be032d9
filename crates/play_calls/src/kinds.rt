//! Kinds that have words, and their numbers in tables.
use cases::{CaseFault, Out, Played, halves};
use hall_types::{
    Erase, Numbered, OrderKind, OrderStage, Outcome, Progress, Purpose, Role, Stage, Status,
    arch_number,
};
use pxe_vendor::Arch;

// Each one of a kind that has a number, with its number and its word.
macro_rules! print_known {
    ($out:ident, $kind:ident, $one:ident, $number:expr, $word:expr) => {
        for number in 0..=u8::MAX {
            if let Some($one) = $kind::with_number(number) {
                $out.show(format_args!("{} {}\n", $number, $word));
            }
        }
    };
}

/// All of a kind, with their numbers.
pub fn known(rest: &str, out: &mut Out) -> Played {
    match rest {
        "statuses" => print_known!(out, Status, one, one.number(), one.text()),
        "roles" => print_known!(out, Role, one, one.number(), one.text()),
        "purposes" => print_known!(out, Purpose, one, one.number(), one.text()),
        "order kinds" => print_known!(out, OrderKind, one, one.number(), one.text()),
        "kinds of erasing" => print_known!(out, Erase, one, one.number(), one.text()),
        "stages" => print_known!(out, Stage, one, one.number(), format_args!("{one:?}")),
        "order stages" => print_known!(out, OrderStage, one, one.number(), format_args!("{one:?}")),
        "architectures" => print_known!(out, Arch, one, arch_number(one), one.text()),
        _ => return Err(CaseFault::Form),
    }
    Ok(())
}

/// What a word is as one of a kind, `KIND WORD`.
pub fn named(rest: &str, out: &mut Out) -> Played {
    let (kind, word) = halves(rest, " ")?;
    let text = match kind {
        "role" => word.parse::<Role>().ok().map(|one| one.text()),
        "erase" => word.parse::<Erase>().ok().map(|one| one.text()),
        "progress" => word.parse::<Progress>().ok().map(|one| one.text()),
        "outcome" => word.parse::<Outcome>().ok().map(|one| one.text()),
        "arch" => word.parse::<Arch>().ok().map(|one| one.text()),
        _ => return Err(CaseFault::Form),
    };
    out.push(text.unwrap_or("none"));
    Ok(())
}
