//! What holds of halls, whatever is written.
ghost use Rattle.std.specs.Prelude.{◌≡◌, ◌≢◌, ◌++◌, ◌↔◌, ℕ, List, Option, None, Some, true};
ghost use Rattle.hall_types.specs.{Act.{act_of_text, act_text}, Image.BootImage, Kinds.{with_number, role_text, role_of_text, erase_text, erase_of_text, progress_text, progress_of_text, outcome_text, outcome_of_text, arch_number}, declared.{act.Act.Act, kinds.{Role.{Role, TheVariants.Admin}, Erase.Erase, Progress.Progress, Outcome.Outcome}, boot.Boot.Boot, image.Live.Live, machine.{Interface.Interface, Machine.Machine}, number.Numbers.Numbers, operator.{Operator.Operator, Member.Member, Pool.Pool}, order.Order.Order, receipt.Receipt.Receipt, change.RowWrite.{RowWrite, TheVariants.{ImageGone, InterfaceGone, MachineGone, PutBoot, PutImage, PutInterface, PutLive, PutMachine, PutMember, PutNumbers, PutOperator, PutOrder, PutPool, PutReceipt}}}, Rows.at, Hall.{Hall, Schema, applied, default_pool, new_hall, pair, written}, Keyed.IsKeyed, Tables.{ChangesOnly, HasNone, IsGone, IsPut, IsSole, tables_of}};

use crate::numbered::Numbered;

/// A change in two parts is carried out part by part.
#[tactic(auto, using(crate::specs::ChangeLaws::applied_append))]
pub fn changes_in_turn()
    ensures { (vs ws : List RowWrite) (h : Hall) → applied (vs ++ ws) h ≡ applied ws (applied vs h) }
{}

/// A row write leaves every table but its own as it was.
#[tactic(auto, using(crate::proofs::WriteLemmas::changes_only))]
pub fn writes_leave_other_tables()
    ensures { (w : RowWrite) (h : Hall) → ChangesOnly (tables_of w) h (written w h) }
{}

/// A row that is put stands under its key, a row that goes is gone, and the other rows of its table are as
/// before.
pub fn writes_leave_other_rows()
    ensures operators { (o : Operator) (h : Hall) → IsPut h.operators (written (PutOperator o) h).operators o.name o }
    ensures pools { (p : Pool) (h : Hall) → IsPut h.pools (written (PutPool p) h).pools p.name p }
    ensures members { (m : Member) (h : Hall) → IsPut h.members (written (PutMember m) h).members (pair m.pool m.operator) m }
    ensures images { (i : BootImage) (h : Hall) → IsPut h.images (written (PutImage i) h).images i.name i }
    ensures images_gone { (name : List ℕ) (h : Hall) → IsGone h.images (written (ImageGone name) h).images name }
    ensures lives { (l : Live) (h : Hall) → IsPut h.lives (written (PutLive l) h).lives (arch_number l.arch) l }
    ensures machines { (m : Machine) (was : Option ℕ) (h : Hall) → IsPut h.machines (written (PutMachine m was) h).machines m.id m }
    ensures interfaces { (i : Interface) (h : Hall) → IsPut h.interfaces (written (PutInterface i) h).interfaces i.mac i }
    ensures interfaces_gone { (mac : List ℕ) (h : Hall) → IsGone h.interfaces (written (InterfaceGone mac) h).interfaces mac }
    ensures boots { (b : Boot) (h : Hall) → IsPut h.boots (written (PutBoot b) h).boots b.number b }
    ensures orders { (o : Order) (h : Hall) → IsPut h.orders (written (PutOrder o) h).orders o.number o }
    ensures receipts { (r : Receipt) (h : Hall) → IsPut h.receipts (written (PutReceipt r) h).receipts (pair r.operator r.key) r }
    ensures numbers { (n : Numbers) (h : Hall) → (written (PutNumbers n) h).last ≡ n }
{}

/// A machine goes with its interfaces, boots and orders, and leaves all other machines and theirs.
pub fn machine_goes_alone()
    ensures machine { (id : ℕ) (h : Hall) → IsGone h.machines (written (MachineGone id) h).machines id }
    ensures interfaces { (id : ℕ) (h : Hall) (mac : List ℕ) (i : Interface)
        → (at (written (MachineGone id) h).interfaces mac ≡ Some i) ↔ ((at h.interfaces mac ≡ Some i) × (i.machine ≢ id)) }
    ensures boots { (id : ℕ) (h : Hall) (number : ℕ) (b : Boot)
        → (at (written (MachineGone id) h).boots number ≡ Some b) ↔ ((at h.boots number ≡ Some b) × (b.machine ≢ id)) }
    ensures orders { (id : ℕ) (h : Hall) (number : ℕ) (o : Order)
        → (at (written (MachineGone id) h).orders number ≡ Some o) ↔ ((at h.orders number ≡ Some o) × (o.machine ≢ id)) }
{}

/// A new hall has one enabled admin, the pool `default`, and nothing else.
#[tactic(auto, using(crate::proofs::WriteLemmas::is_sole, crate::proofs::WriteLemmas::has_none))]
pub fn new_hall_is_bare()
    ensures admin { (schema : Schema) (admin digest : List ℕ) → IsSole (new_hall schema admin digest).operators admin (record { name = admin; role = Admin; digest = digest; enabled = true }) }
    ensures pool { (schema : Schema) (admin digest : List ℕ) → IsSole (new_hall schema admin digest).pools default_pool (record { name = default_pool }) }
    ensures schema { (schema : Schema) (admin digest : List ℕ) → (new_hall schema admin digest).schema ≡ schema }
    ensures members { (schema : Schema) (admin digest : List ℕ) → HasNone (new_hall schema admin digest).members }
    ensures images { (schema : Schema) (admin digest : List ℕ) → HasNone (new_hall schema admin digest).images }
    ensures lives { (schema : Schema) (admin digest : List ℕ) → HasNone (new_hall schema admin digest).lives }
    ensures machines { (schema : Schema) (admin digest : List ℕ) → HasNone (new_hall schema admin digest).machines }
    ensures interfaces { (schema : Schema) (admin digest : List ℕ) → HasNone (new_hall schema admin digest).interfaces }
    ensures boots { (schema : Schema) (admin digest : List ℕ) → HasNone (new_hall schema admin digest).boots }
    ensures orders { (schema : Schema) (admin digest : List ℕ) → HasNone (new_hall schema admin digest).orders }
    ensures receipts { (schema : Schema) (admin digest : List ℕ) → HasNone (new_hall schema admin digest).receipts }
    ensures numbers { (schema : Schema) (admin digest : List ℕ) → (new_hall schema admin digest).last ≡ record { machine = 0; boot = 0; order = 0 } }
{}

/// Every row stands under its own key, in a new hall and after every row write.
pub fn rows_stand_under_their_keys()
    ensures new { (schema : Schema) (admin digest : List ℕ) → IsKeyed (new_hall schema admin digest) }
    ensures written { (w : RowWrite) (h : Hall) → IsKeyed h → IsKeyed (written w h) }
{}

/// A word is read as a kind if and only if it is that kind's word.
#[tactic(auto, using(crate::specs::KindLaws::by_text))]
pub fn words_are_of_one_kind()
    ensures role { (text : List ℕ) (k : Role) → (role_of_text text ≡ Some k) ↔ (role_text k ≡ text) }
    ensures act { (text : List ℕ) (k : Act) → (act_of_text text ≡ Some k) ↔ (act_text k ≡ text) }
    ensures erase { (text : List ℕ) (k : Erase) → (erase_of_text text ≡ Some k) ↔ (erase_text k ≡ text) }
    ensures progress { (text : List ℕ) (k : Progress) → (progress_of_text text ≡ Some k) ↔ (progress_text k ≡ text) }
    ensures outcome { (text : List ℕ) (k : Outcome) → (outcome_of_text text ≡ Some k) ↔ (outcome_text k ≡ text) }
{}

/// A number is read as a kind if and only if it is that kind's number.
pub fn numbers_are_of_one_kind<K: Numbered>()
    ensures { (number : ℕ) (kind : K) → (with_number K.number_of number K.kinds ≡ Some kind) ↔ (K.number_of kind ≡ number) }
{}
