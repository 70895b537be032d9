//! Laws of all scripts.
ghost use Rattle.std.specs.{Prelude.{◌≡◌, ◌≢◌, ◌↔◌, List, ℕ, Ok, All, Any, codes}, List.flat_map};
ghost use Rattle.ipxe_script.specs.{Script.{words_of, spelling, IsScript}, Text.{line_feed, space}, Purpose.{IsErasing, IsDeploying, IsKernelWith}, Understood.understood, declared.command.Command.Command};

/// Law: a script has one spelling. It is read as that script, and no other text is.
pub fn one_spelling()
    // The spelling of a script is read as that script.
    ensures printed { (commands : List Command) → IsScript commands
        → understood (spelling commands) ≡ Ok commands }
    // A text that is read is the spelling of the script that it is read as.
    ensures read { (text : List ℕ) (commands : List Command) → understood text ≡ Ok commands
        → IsScript commands × (text ≡ spelling commands) }
    // Scripts with equal spellings are equal.
    ensures one { (commands others : List Command) → IsScript commands → IsScript others
        → spelling commands ≡ spelling others → commands ≡ others }
{}

/// Law: no word of a script contains a space, which separates words, or a line feed, which ends lines.
pub fn words_have_no_separators()
    ensures { (commands : List Command) → IsScript commands
        → All (λ word. All (λ octet. (octet ≢ space) × (octet ≢ line_feed)) word) (flat_map words_of commands) }
{}

/// Law: a printed script is an erasing text, or a deploying one, if and only if one of its `kernel`
/// commands has the argument that says so.
pub fn purpose_is_argument()
    ensures erasing { (commands : List Command) → IsScript commands
        → IsErasing (spelling commands) ↔ Any (IsKernelWith (codes "hall.purpose=erase")) commands }
    ensures deploying { (commands : List Command) → IsScript commands
        → IsDeploying (spelling commands) ↔ Any (IsKernelWith (codes "hall.purpose=deploy")) commands }
{}
