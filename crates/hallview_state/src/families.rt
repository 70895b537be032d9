//! Families of metrics, and labels of their samples.
ghost use Rattle.std.specs.Prelude.{◌≡◌, true};
ghost use Rattle.hallview_state.specs.Exposition.{is_one_line};
ghost use Rattle.hallview_state.specs.Families.{label_name, sample_name};

/// A family of metrics.
#[derive(Clone, Copy)]
pub(crate) enum Family {
    Machines,
    Orders,
    Deadlines,
    Moves,
    Pause,
    Up,
    Took,
    Age,
}

#[tactic(auto, unfolding(crate::specs::Families::sample_name))]
impl Family {
    /// The name of the family, as OpenMetrics has it.
    pub(crate) fn name(self) -> &'static str
        ensures { is_one_line result.now ≡ true }
    {
        match self {
            Family::Moves => "hall_moves",
            _ => self.sample_name(),
        }
    }

    /// The name of its samples, which ends in `_total` if they count.
    pub(crate) fn sample_name(self) -> &'static str
        ensures name { result.now ≡ sample_name self }
        ensures line { is_one_line result.now ≡ true }
    {
        match self {
            Family::Machines => "hall_machines",
            Family::Orders => "hall_orders_waiting",
            Family::Deadlines => "hall_deadline_seconds_min",
            Family::Moves => "hall_moves_total",
            Family::Pause => "hall_list_pause_seconds",
            Family::Up => "hall_desk_up",
            Family::Took => "hall_list_seconds",
            Family::Age => "hall_list_age_seconds",
        }
    }

    /// What its samples are: those of a counter never fall.
    pub(crate) fn kind(self) -> &'static str
        ensures { is_one_line result.now ≡ true }
    {
        match self {
            Family::Moves => "counter",
            _ => "gauge",
        }
    }

    /// What it is, in a sentence.
    pub(crate) fn help(self) -> &'static str
        ensures { is_one_line result.now ≡ true }
    {
        match self {
            Family::Machines => "Machines by pool and status, as the desk listed them last.",
            Family::Orders => "Power orders that wait, by kind.",
            Family::Deadlines => {
                "Seconds until the next deadline of a status; negative once it has passed."
            }
            Family::Moves => {
                "Moves of machines from one status to another that were seen since hallview began."
            }
            Family::Pause => "How long it is from one list to the next.",
            Family::Up => "Whether the desk's last answer was a list.",
            Family::Took => "How long the last list took.",
            Family::Age => "How old the last list is.",
        }
    }
}

/// What a sample is labelled with.
#[derive(Clone, Copy)]
pub(crate) enum Label {
    Hall,
    Pool,
    Status,
    Kind,
    From,
    To,
}

#[tactic(auto, unfolding(crate::specs::Families::label_name))]
impl Label {
    /// The name.
    pub(crate) fn name(self) -> &'static str
        ensures { result.now ≡ label_name self }
    {
        match self {
            Label::Hall => "hall",
            Label::Pool => "pool",
            Label::Status => "status",
            Label::Kind => "kind",
            Label::From => "from",
            Label::To => "to",
        }
    }
}
