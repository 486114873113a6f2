// Prints the pages of a piece, read from standard input as three lines of decimals.
#![tactic(auto)]

fn main() {
    printer::print_input();
}
