//! Floor: node. The turns of a life, the course that they bring, and what each line of its journal rests on, as
//! definitions alone. They speak of no link, no disk and no code of a node: `node_loop` says which turns a link and a
//! clock bring, and `turn_laws` proves what such a journal gives.
#![tactic(auto)]
