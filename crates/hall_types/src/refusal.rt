//! Why the desk refuses.
ghost use Rattle.std.specs.Prelude.{◌≡◌, Some};
ghost use Rattle.hall_types.specs.{Kinds.with_text, Refusal.refusal_name};

use crate::kinds::UnknownWord;
use std::error::Error;
use std::fmt;
use std::str::FromStr;

/// Why the desk refuses a request. A command is refused for the first cause of this order, from
/// BadRequest to Exhausted.
#[derive(Clone, Copy, Debug)]
pub enum Refusal {
    /// The request is malformed.
    BadRequest = 1,
    /// There is no such route.
    NoRoute = 2,
    /// The route has another method.
    WrongMethod = 3,
    /// The request has no Content-Length.
    NeedLength = 4,
    /// The body is too large.
    TooLarge = 5,
    /// The bearer token is that of no enabled operator.
    UnknownToken = 6,
    /// The request key was used for another command.
    KeyReused = 7,
    /// The operator's role does not allow it.
    RoleNeeded = 8,
    /// There is no such machine.
    NoMachine = 9,
    /// The machine has no such interface.
    NoInterface = 10,
    /// There is no such pool.
    NoPool = 11,
    /// There is no such image.
    NoImage = 12,
    /// There is no such operator.
    NoOperator = 13,
    /// The machine has another owner.
    NotOwner = 14,
    /// The operator is no member of the pool.
    NotMember = 15,
    /// The machine has another version.
    StaleVersion = 16,
    /// The machine is locked.
    Locked = 17,
    /// The machine's status does not allow it.
    WrongStatus = 18,
    /// The name, address or identifier is in use.
    Taken = 19,
    /// The architecture has no live image.
    NoLiveImage = 20,
    /// The image is for another architecture.
    WrongArch = 21,
    /// The image is in use.
    InUse = 22,
    /// It is the last interface of its machine.
    LastInterface = 23,
    /// An operator cannot disable itself.
    SelfDisable = 24,
    /// The hall or the machine can take no more.
    Full = 25,
    /// All numbers were issued.
    Exhausted = 26,
    /// There is no such boot.
    NoBoot = 27,
    /// There is no such order.
    NoOrder = 28,
    /// Another outcome was reported before.
    Spent = 29,
    /// The boot is not the machine's current one.
    Stale = 30,
    /// The order was withdrawn before.
    Withdrawn = 31,
    /// The boot cannot report this stage.
    WrongStage = 32,
    /// Memory or disk is wanting, or the call was interrupted.
    Unavailable = 33,
}

impl Refusal {
    ghost use Rattle.hall_types.specs.Refusal.{refusal_name, refusal_number, refusal_status};

    /// All of them, in the order of their numbers.
    pub const ALL: [Refusal; 33] = [
        Refusal::BadRequest,
        Refusal::NoRoute,
        Refusal::WrongMethod,
        Refusal::NeedLength,
        Refusal::TooLarge,
        Refusal::UnknownToken,
        Refusal::KeyReused,
        Refusal::RoleNeeded,
        Refusal::NoMachine,
        Refusal::NoInterface,
        Refusal::NoPool,
        Refusal::NoImage,
        Refusal::NoOperator,
        Refusal::NotOwner,
        Refusal::NotMember,
        Refusal::StaleVersion,
        Refusal::Locked,
        Refusal::WrongStatus,
        Refusal::Taken,
        Refusal::NoLiveImage,
        Refusal::WrongArch,
        Refusal::InUse,
        Refusal::LastInterface,
        Refusal::SelfDisable,
        Refusal::Full,
        Refusal::Exhausted,
        Refusal::NoBoot,
        Refusal::NoOrder,
        Refusal::Spent,
        Refusal::Stale,
        Refusal::Withdrawn,
        Refusal::WrongStage,
        Refusal::Unavailable,
    ];

    /// The number in the order of refusals, 1 to 33.
    #[tactic(auto, unfolding(crate::specs::Refusal::refusal_row))]
    pub fn number(self) -> u8
        ensures { result ≡ refusal_number self }
    {
        self as u8
    }

    /// The name in answers.
    #[tactic(auto, unfolding(crate::specs::Refusal::refusal_row))]
    pub fn name(self) -> &'static str
        ensures { result.now ≡ refusal_name self }
    {
        match self {
            Refusal::BadRequest => "BadRequest",
            Refusal::NoRoute => "NoRoute",
            Refusal::WrongMethod => "WrongMethod",
            Refusal::NeedLength => "NeedLength",
            Refusal::TooLarge => "TooLarge",
            Refusal::UnknownToken => "UnknownToken",
            Refusal::KeyReused => "KeyReused",
            Refusal::RoleNeeded => "RoleNeeded",
            Refusal::NoMachine => "NoMachine",
            Refusal::NoInterface => "NoInterface",
            Refusal::NoPool => "NoPool",
            Refusal::NoImage => "NoImage",
            Refusal::NoOperator => "NoOperator",
            Refusal::NotOwner => "NotOwner",
            Refusal::NotMember => "NotMember",
            Refusal::StaleVersion => "StaleVersion",
            Refusal::Locked => "Locked",
            Refusal::WrongStatus => "WrongStatus",
            Refusal::Taken => "Taken",
            Refusal::NoLiveImage => "NoLiveImage",
            Refusal::WrongArch => "WrongArch",
            Refusal::InUse => "InUse",
            Refusal::LastInterface => "LastInterface",
            Refusal::SelfDisable => "SelfDisable",
            Refusal::Full => "Full",
            Refusal::Exhausted => "Exhausted",
            Refusal::NoBoot => "NoBoot",
            Refusal::NoOrder => "NoOrder",
            Refusal::Spent => "Spent",
            Refusal::Stale => "Stale",
            Refusal::Withdrawn => "Withdrawn",
            Refusal::WrongStage => "WrongStage",
            Refusal::Unavailable => "Unavailable",
        }
    }

    /// The HTTP status of the answer (RFC 9110 section 15; RFC 4918 section 11.3 for 423).
    #[tactic(auto, unfolding(crate::specs::Refusal::refusal_row))]
    pub fn status(self) -> u16
        ensures { result ≡ refusal_status self }
    {
        match self {
            Refusal::BadRequest => 400,
            Refusal::UnknownToken => 401,
            Refusal::RoleNeeded | Refusal::NotOwner | Refusal::NotMember => 403,
            Refusal::NoRoute
            | Refusal::NoMachine
            | Refusal::NoInterface
            | Refusal::NoPool
            | Refusal::NoImage
            | Refusal::NoOperator
            | Refusal::NoBoot
            | Refusal::NoOrder => 404,
            Refusal::WrongMethod => 405,
            Refusal::KeyReused
            | Refusal::WrongStatus
            | Refusal::Taken
            | Refusal::NoLiveImage
            | Refusal::WrongArch
            | Refusal::InUse
            | Refusal::LastInterface
            | Refusal::SelfDisable
            | Refusal::Full
            | Refusal::Exhausted
            | Refusal::Spent
            | Refusal::WrongStage => 409,
            Refusal::Stale | Refusal::Withdrawn => 410,
            Refusal::NeedLength => 411,
            Refusal::StaleVersion => 412,
            Refusal::TooLarge => 413,
            Refusal::Locked => 423,
            Refusal::Unavailable => 503,
        }
    }

    /// What it means, in a sentence without a full stop.
    pub fn sentence(self) -> &'static str {
        match self {
            Refusal::BadRequest =>
                "The head, the target's numbers, the length or the JSON isn't as asked: a member missing, too many, or of another kind; a body that is short",
            Refusal::NoRoute => "No such path",
            Refusal::WrongMethod => "The path has another method",
            Refusal::NeedLength => "A POST without Content-Length",
            Refusal::TooLarge => "A body over 16,384 octets",
            Refusal::UnknownToken =>
                "No bearer token, an unknown one, or that of a disabled operator",
            Refusal::KeyReused => "You used this key for another command",
            Refusal::RoleNeeded => "Your role doesn't allow it",
            Refusal::NoMachine => "No machine with this number or address",
            Refusal::NoInterface => "The machine doesn't have this address",
            Refusal::NoPool => "No such pool",
            Refusal::NoImage => "No such image",
            Refusal::NoOperator => "No such operator",
            Refusal::NotOwner =>
                "Another operator owns the machine, or nobody does, and you may not act in its place",
            Refusal::NotMember => "You aren't a member of the machine's pool",
            Refusal::StaleVersion => "The machine has changed since you looked",
            Refusal::Locked => "The machine is locked",
            Refusal::WrongStatus => "The machine's status has no such action",
            Refusal::Taken => "The name, digest, address or UUID is in use",
            Refusal::NoLiveImage => "The machine's architecture has no live image",
            Refusal::WrongArch => "The image is for another architecture",
            Refusal::InUse => "The image is live, or a machine has it",
            Refusal::LastInterface => "It is the machine's only address",
            Refusal::SelfDisable => "An admin can't disable itself",
            Refusal::Full => "The hall has 10,000 machines, or the machine has 8 addresses",
            Refusal::Exhausted => "A number or version has reached 10^15",
            Refusal::NoBoot => "No boot with this number and token",
            Refusal::NoOrder => "No order with this number",
            Refusal::Spent => "The other outcome was reported before, and holds",
            Refusal::Stale => "The machine has another boot by now, or none",
            Refusal::Withdrawn => "The order is void: the machine's status has changed",
            Refusal::WrongStage => "done of a rescue, or failed while in Rescue mode",
            Refusal::Unavailable =>
                "Memory or the disk failed; nothing was changed, or the answer is lost to a fault",
        }
    }
}

// The one of these refusals that has this name.
fn with_name(refusals: &[Refusal], name: &str) -> Option<Refusal>
    ensures { result ≡ with_text refusal_name name.now refusals.now }
{
    refusals.iter().copied().find(|it| it.name() == name)
}

/// A refusal is read from its name.
impl FromStr for Refusal {
    type Err = UnknownWord;

    ghost use Rattle.std.specs.Result.{result_ok};
    ghost use Rattle.hall_types.specs.Refusal.{refusal_of_text};

    ghost from_str_gives = { λ name result. result_ok result ≡ refusal_of_text name };

    fn from_str(name: &str) -> Result<Self, UnknownWord> {
        with_name(&Self::ALL, name).ok_or(UnknownWord)
    }
}

impl fmt::Display for Refusal {
    ghost output = { λ refusal. Some (refusal_name refusal) };

    fn fmt<W: fmt::Write>(&self, f: &mut fmt::Formatter<W>) -> fmt::Result {
        f.pad(self.name())
    }
}

impl Error for Refusal {}
