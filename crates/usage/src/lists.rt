// The list of calls of the customer's example, behind its fresh pool of two cells, as words: five a call, its code and its arguments. Three answer words a
// call: 0 or the refusal's number, and the numbers given. The example prints ok, ok, no 5, ok, ok, ok, ok 9, ok 1 3; the visits that each `new` gives too,
// the first of its numbers, are 0 here.
use batch::Stopped;
use pool::Pool;

fn show_ran(rt: &impl Print, ran: Result<usize, Stopped>) {
    let _ = match ran {
        Ok(n) => println!(rt; "all calls ran: {n}"),
        Err(Stopped::Malformed(n)) => println!(rt; "no call, behind: {n}"),
        Err(Stopped::NoRoom(n)) => println!(rt; "no room for an answer, behind: {n}"),
    };
}

// Prints the answers of the calls, of three words each.
fn show_all(rt: &impl Print, answers: &[u32]) {
    for answer in answers.chunks(3) {
        if let [status, first, second] = answer {
            let _ = println!(rt; "answer: {status} {first} {second}");
        }
    }
}

pub fn run_example(rt: &impl Print) {
    let list = [
        2u32, 0, 0, 0, 7, // n 0 0 0 7
        2, 1, 0, 0, 8, // n 1 0 0 8
        2, 2, 1, 1, 9, // n 2 1 1 9
        1, 0, 0, 0, 0, // z 0
        1, 1, 0, 0, 0, // z 1
        2, 2, 1, 1, 9, // n 2 1 1 9
        8, 2, 0, 0, 0, // v 2
        10, 0, 0, 0, 0, // g
    ];
    let mut words = [0u32; 26];
    let mut answers = [0u32; 24];
    let _ = Pool::fresh(&mut words);
    show_ran(rt, batch::run(&mut words, &list, &mut answers));
    show_all(rt, &answers);
}
