// Options of a command: pairs of a name and a value.
use anyhow::Context;
use claim_file::{FieldName, element};

// The values of the options of `prove`; of an option that is given twice the first counts.
#[derive(Clone, Copy)]
pub struct Options<'a> {
    pub alpha: Option<&'a str>,
    pub beta: Option<&'a str>,
    pub free1: Option<&'a str>,
    pub free2: Option<&'a str>,
}

impl<'a> Options<'a> {
    // The options that words say, if they are pairs of a name and a value.
    pub fn of(words: &'a [String]) -> Option<Options<'a>> {
        let mut options = Options {
            alpha: None,
            beta: None,
            free1: None,
            free2: None,
        };
        for pair in words.chunks(2) {
            let [name, value] = pair else {
                return None;
            };
            let option = match name.as_str() {
                "--alpha" => &mut options.alpha,
                "--beta" => &mut options.beta,
                "--free1" => &mut options.free1,
                "--free2" => &mut options.free2,
                _ => return None,
            };
            *option = option.or(Some(value.as_str()));
        }
        Some(options)
    }
}

// The element of the field that the value of an option spells, where the option is given.
pub fn element_of(value: Option<&str>, field: FieldName) -> anyhow::Result<Option<u32>> {
    let Some(word) = value else {
        return Ok(None);
    };
    let x = element(field, word.as_bytes()).context(
        "prove: an option is no element of the claim's field",
    )?;
    Ok(Some(x))
}
