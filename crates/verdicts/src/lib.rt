// What a call is refused for, of any stored state: 8 where the state is against the rules, before what the rules say of its face. No
// public function has a `requires`. Each verdict is `if_sound` over its own rule: a function with a closure for the rule would be no
// shorter at any of them.
#![tactic(auto)]

pub mod reader;
pub mod tag;
