// How the command `llwybrenu` is used.
use terminal::say;

// How the command is used, to standard output or standard error.
pub fn usage(to: &impl Print) {
    let _ = to.print("usage: llwybrenu check BOOK [BOARD]\n");
    let _ = to.print("       llwybrenu check-strip STRIP\n");
    let _ = to.print("       llwybrenu run BOOK BOARD [LIMIT] [-o FILE]\n");
    let _ = to.print("       llwybrenu run-strip STRIP BOARD [LIMIT] [ALLOWANCE] [-o FILE]\n");
    let _ = to.print("       llwybrenu translate BOOK -o STRIP\n");
    let _ = to.print("       llwybrenu list STRIP\n");
    let _ = to.print("       llwybrenu help\n");
}

// What the words mean.
pub fn help(rt: HostRuntime) {
    say(
        rt,
        "LIMIT: the most firings, 0 to 65535; 100 if it is left out.\n",
    );
    say(
        rt,
        "ALLOWANCE: the most steps of a firing; 1000000 if it is left out.\n",
    );
    say(
        rt,
        "-o FILE: where the board or the strip is written, after all else is done.\n",
    );
    say(
        rt,
        "A run prints `fired`, the firings; `end`, 20 QUIET 21 LIMIT 22 FULL 23 SPENT 24 STUCK;\n",
    );
    say(
        rt,
        "`rule`, the last that fired, 255 if none; then each row's kind and numbers.\n",
    );
    say(
        rt,
        "Exit status: 0 accepted or ended, 1 refused, 2 no such command or file.\n",
    );
}
