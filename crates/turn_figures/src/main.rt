// The figures of calls that share what they are lent, by the public calls: parts that come and go on a plate, and the
// table of verdicts of two users. Number, place and count of each call are written.
#![tactic(auto)]

mod plates;
mod tables;

fn main() {
    plates::come_and_go();
    plates::other_bytes();
    tables::two_users();
    tables::disc();
}
