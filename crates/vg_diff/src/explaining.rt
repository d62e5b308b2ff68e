//! What is said on the standard error where the packets don't match, or nothing was compared.

use std::io;

/// How the program is called.
const USAGE: &str = "usage:
  vgdiff [--brief | --classes] [--ignore FIELD].. [--only PREFIX].. [--capture CAPTURE] TX REPORT OTHER..
      Holds the packets of OTHER, 1 to 16 savefiles of another router, against those that the run of REPORT wrote to TX, by their bytes up to
      the end of the IP datagram. ARP and neighbor discovery are left out, and counted. With the CAPTURE of the run, packets that had to be
      dropped are known again.
      With prefixes of addresses only the packets from or to one of them are compared.
      FIELD: destination-mac source-mac type vlan identification ttl checksum source destination source-port destination-port
  vgdiff --linux SCRIPT
      Prints the commands of iproute2 that make the kernel's router of the graph which SCRIPT begins with.
docs/FORMATS.md has the formats, the limits and the exit statuses.
";

// What was found, by the status.
fn found(status: u8) -> &'static str {
    match status {
        1 => "memory ran out",
        2 =>
            "options first, each with its value in the next word, then TX, REPORT and 1 to 16 savefiles are wanted, or `--linux` and a script",
        3 => "a file could not be loaded: is it there, and may you read it?",
        4 => "a savefile is refused: most often it is pcapng, and `editcap -F pcap` converts it",
        5 => "REPORT is no report, or not that of TX or of CAPTURE; or the script is refused",
        7 => "the standard output could not be written to its end",
        _ => "the packets differ",
    }
}

/// Writes to the standard error why a call ended with a status other than 0.
///
/// # Errors
///
/// That of the standard error, where it can't be written.
pub fn explain_diff<R: Eprint + AllocGlobal>(rt: &R, words: &[&str], status: u8) -> io::Result<()> {
    if status == 2 && words.iter().any(|word| *word == "--help") {
        return eprint!(rt; "{USAGE}");
    }
    let found = found(status);
    eprintln!(rt; "vgdiff: {found}")?;
    if status == 2 {
        eprintln!(rt; "`vgdiff --help` prints all words")?;
    }
    Ok(())
}
