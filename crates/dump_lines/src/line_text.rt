//! A line that is being built: `name: value` one after another, or the members of a JSON object.

use crate::field::{Field, Name};
use crate::printing::{
    Style, json_data, json_epochs, json_headers, json_of, json_word, push_data, push_epochs,
    push_headers, push_hex, push_value,
};
use record_batch::Header;
use serde_json::{Map, Value as Json, put};
use std::alloc::{AllocError, Global};

/// A line that is being built.
#[derive(Drop)]
pub struct LineText {
    style: Style,
    text: String,
    members: Map<String, Json>,
}

impl LineText {
    /// Starts an empty line.
    pub fn new(alloc: Global, style: Style) -> LineText {
        LineText {
            style,
            text: String::new(alloc),
            members: Map::new(alloc),
        }
    }

    /// Writes the name of the next field.
    fn begin(&mut self, name: Name) -> Result<(), AllocError> {
        if !self.text.is_empty() {
            self.text.push_str(" ")?;
        }
        self.text.push_str(name.word())?;
        self.text.push_str(": ")
    }

    /// Appends a member of the object.
    fn member(&mut self, alloc: Global, name: Name, value: Json) -> Result<(), AllocError> {
        put(&mut self.members, alloc, name.word(), value)
    }

    /// Appends fields. Fails only if memory runs out.
    pub fn fields(&mut self, alloc: Global, fields: &[Field]) -> Result<(), AllocError> {
        for field in fields {
            self.field(alloc, *field)?;
        }
        Ok(())
    }

    /// Appends a field.
    fn field(&mut self, alloc: Global, field: Field) -> Result<(), AllocError> {
        if self.style.json {
            let value = json_of(alloc, self.style, field.value)?;
            return self.member(alloc, field.name, value);
        }
        self.begin(field.name)?;
        push_value(&mut self.text, self.style, field.value)
    }

    /// Appends a field that is a word. Fails only if memory runs out.
    pub fn word(&mut self, alloc: Global, name: Name, word: &str) -> Result<(), AllocError> {
        if self.style.json {
            let value = json_word(alloc, word)?;
            return self.member(alloc, name, value);
        }
        self.begin(name)?;
        self.text.push_str(word)
    }

    /// Appends a key, a value or a header's value: text if it is printable UTF-8, else hexadecimal; `null` for none.
    /// Fails only if memory runs out.
    pub fn data(
        &mut self,
        alloc: Global,
        name: Name,
        bytes: Option<&[u8]>,
    ) -> Result<(), AllocError> {
        if self.style.json {
            let value = match bytes {
                Some(bytes) => json_data(alloc, bytes)?,
                None => Json::Null,
            };
            return self.member(alloc, name, value);
        }
        self.begin(name)?;
        match bytes {
            Some(bytes) => push_data(alloc, &mut self.text, bytes),
            None => self.text.push_str("null"),
        }
    }

    /// Appends bytes in hexadecimal. Fails only if memory runs out.
    pub fn hex(&mut self, alloc: Global, name: Name, bytes: &[u8]) -> Result<(), AllocError> {
        let mut digits = String::new(alloc);
        push_hex(alloc, &mut digits, bytes)?;
        self.word(alloc, name, digits.as_str())
    }

    /// Appends a record's headers. Fails only if memory runs out.
    pub fn headers(
        &mut self,
        alloc: Global,
        name: Name,
        headers: &[Header],
    ) -> Result<(), AllocError> {
        if self.style.json {
            let value = json_headers(alloc, headers)?;
            return self.member(alloc, name, value);
        }
        self.begin(name)?;
        push_headers(alloc, &mut self.text, headers)
    }

    /// Appends leader epochs with their start offsets. Fails only if memory runs out.
    pub fn epochs(
        &mut self,
        alloc: Global,
        name: Name,
        epochs: &[(u32, u64)],
    ) -> Result<(), AllocError> {
        if self.style.json {
            let value = json_epochs(alloc, epochs)?;
            return self.member(alloc, name, value);
        }
        self.begin(name)?;
        push_epochs(&mut self.text, epochs)
    }

    /// Returns the text of the line, with its line feed. Fails only if memory runs out.
    pub fn finish(self, alloc: Global) -> Result<String, AllocError> {
        let LineText {
            style,
            text,
            members,
        } = self;
        let mut text = if style.json {
            Json::Object(members).to_string(alloc)?
        } else {
            text
        };
        text.push_str("\n")?;
        Ok(text)
    }
}

/// Returns the text of a line of these fields, with its line feed. Fails only if memory runs out.
pub fn text_of(alloc: Global, style: Style, fields: &[Field]) -> Result<String, AllocError> {
    let mut text = LineText::new(alloc, style);
    text.fields(alloc, fields)?;
    text.finish(alloc)
}
