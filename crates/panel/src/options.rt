// What the program was asked for.
use anyhow::anyhow;
use std::env::Args;

#[derive(Default, Drop)]
pub struct Options {
    pub help: bool,
    pub page: bool,
    pub marks: bool,
    pub manual: bool,
    pub color: bool,
    pub room: Option<usize>,
    pub file: Option<String>,
}

impl Options {
    // A record; there is one at most.
    fn read_from(&mut self, file: String) -> anyhow::Result<()> {
        if let Some(other) = &self.file {
            return Err(anyhow!("{other} and {file} are two files: see panel --help"));
        }
        self.file = Some(file);
        Ok(())
    }
}

// The number of bytes that stands behind `--room`.
fn room_of(word: Option<String>) -> anyhow::Result<usize> {
    let Some(word) = word else {
        return Err(anyhow!("--room wants a number of bytes: see panel --help"));
    };
    word.parse().map_err(|_| anyhow!(
        "--room wants a number of bytes, and not {word}: see panel --help"
    ))
}

// What the words ask for, of which the first is the program's name.
pub(crate) fn given(words: Args) -> anyhow::Result<Options> {
    let mut options = Options::default();
    let mut words = words.skip(1);
    while let Some(word) = words.next() {
        match word.as_str() {
            "--help" => options.help = true,
            "--page" => options.page = true,
            "--marks" => options.marks = true,
            "--manual" => options.manual = true,
            "--color" => options.color = true,
            "--room" => options.room = Some(room_of(words.next())?),
            text if text.starts_with("--") => {
                return Err(anyhow!("{text} is not known: see panel --help"));
            }
            _ => options.read_from(word)?,
        }
    }
    Ok(options)
}
