//! The help text.

/// What the program does and how a script is written, in short.
const TEXT: &str = "simulate FILE   runs the script in FILE
simulate        runs the script on standard input
simulate help   prints this text

One fob and one mixer make the calls of the script, one statement a line, and what
both ends do is shown. An empty line, and one that begins with #, says nothing.

before the first call:
  cipher aes | speck                the block cipher; aes if none is named
  identities WHO HEX HEX            the fob's identity and the mixer's, as this end has them
  key WHO bench NUMBER              this end's own key; both ends need one
  key WHO chip HEX
at any time:
  nonce WHO HEX                     what this end's invite or answer hands over

calls:
  fob invite                        fob prove SOURCE       fob finish SOURCE
  mixer answer SOURCE               mixer confirm SOURCE
  WHO seal octets HEX | count NUMBER
  WHO unseal SOURCE
  WHO close
  pass COUNT SIZE                   packets passed back and forth between open ends
  (SOURCE: last | message NUMBER | octets HEX; WHO: fob | mixer)

for the next call alone:
  cut NUMBER                        only the first octets of its message
  alter PLACE HEX                   one octet changed by exclusive or
  append HEX                        octets added after its message
  workspace NUMBER                  the size of its workspace, 256 if none is given
  output NUMBER                     the size of its output, 4117 if none is given

on the air:
  lose                              the last message written is lost

docs/SCRIPT.md says what each statement means, with examples; examples/ has scripts.
docs/REFUSALS.md has the refusals.
";

/// Prints the help text.
pub(crate) fn show(rt: &HostRuntime) -> anyhow::Result<()> {
    rt.print(TEXT)?;
    Ok(())
}
