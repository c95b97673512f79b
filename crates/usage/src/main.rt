// How the library is used: `load::load`, which hands back a part of the caller's bytes; `tally::collect_tally` and `Reader::next_number`, to which a struct
// is lent by `&mut`; `batch::run`, which runs a list of calls. Each module shows one of them, and says how what it prints, in the file `stdout`, follows from
// the customer's scope.
#![tactic(auto)]

mod images;
mod lists;
mod numbers;
mod tallies;

// A write that fails is passed over.
fn main(rt: HostRuntime) {
    images::load_in_turn(&rt);
    tallies::collect_in_turn(&rt);
    lists::run_example(&rt);
    numbers::read_in_turn(&rt);
}
