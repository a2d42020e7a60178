//! Laws of the table: theorems over the definitions in `specs/`. Their bodies are empty.
ghost use Rattle.pol_requests.specs.Laws.{WordsAreThose};

/// A session draws two random words, a new table four, a new view two, a new principal three, another secret two, and
/// no other request any.
#[tactic(auto, unfolding(crate::specs::Table::table))]
pub fn words_are_those()
    ensures { WordsAreThose }
{}
