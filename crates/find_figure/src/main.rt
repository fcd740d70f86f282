// Find Figure, the program: its data/ is bench c.
#![tactic(auto)]

fn main(rt: HostRuntime) {
    show::find_and_print(&rt);
}
