// Walking the rules of a table that is accepted, what each rule and row says, and the rules in the order of their function numbers.
#![tactic(auto)]

mod order;
mod rule;
mod symbol;
mod walk;

pub use order::order_rules;
pub use rule::{Row, Rule, Table};
pub use symbol::{Symbol, symbol_at};
pub use walk::{find_rule, first_rule, rule_count, rule_end};
