// Find Figure over a realistic rack: its data/ and stdout are by tools/rack.py.
#![tactic(auto)]

fn main(rt: HostRuntime) {
    show::find_and_print(&rt);
}
