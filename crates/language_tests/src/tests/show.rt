//! What a text says, as a text.
use language::{
    AirText, ItemText, MessageText, PartText, SectionText, Span, TextFault, Tree, Verb, place_of,
    read_batch,
};
use std::alloc::{AllocError, Global};

/// A text that grows, beside the one that its spans are of.
#[derive(Drop)]
struct Page<'a> {
    text: &'a [u8],
    out: Vec<u8>,
}

/// What a text says: a line for each bus and each item, expressions in parentheses.
pub fn shown(alloc: Global, text: &[u8]) -> Result<Vec<u8>, TextFault> {
    let batch = read_batch(alloc, text)?;
    let mut page = Page {
        text,
        out: Vec::new(alloc),
    };
    for section in &batch.sections {
        match section {
            SectionText::Bus(bus) => {
                page.put(b"bus ")?;
                page.span(bus.name)?;
                page.put(b"(")?;
                page.spans(&bus.fields)?;
                page.put(b")\n")?;
            }
            SectionText::Air(air) => page.air(air)?,
        }
    }
    Ok(page.out)
}

impl<'a> Page<'a> {
    fn put(&mut self, bytes: &[u8]) -> Result<(), AllocError> {
        self.out.extend_from_slice(bytes)
    }

    fn span(&mut self, span: Span) -> Result<(), AllocError> {
        let bytes = self.text.get(span.start..span.end).unwrap_or(b"?");
        self.put(bytes)
    }

    fn spans(&mut self, spans: &[Span]) -> Result<(), AllocError> {
        let mut first = true;
        for span in spans {
            if !first {
                self.put(b" ")?;
            }
            first = false;
            self.span(*span)?;
        }
        Ok(())
    }

    /// A number below a thousand.
    fn number(&mut self, number: u64) -> Result<(), AllocError> {
        if number >= 100 {
            self.put(&[b'0' + (number / 100 % 10) as u8])?;
        }
        if number >= 10 {
            self.put(&[b'0' + (number / 10 % 10) as u8])?;
        }
        self.put(&[b'0' + (number % 10) as u8])
    }

    fn air(&mut self, air: &AirText) -> Result<(), AllocError> {
        self.put(b"air ")?;
        self.span(air.name)?;
        self.put(b" ")?;
        for item in &air.items {
            let line = place_of(self.text, item.at).line;
            self.number(line as u64)?;
            self.put(b": ")?;
            self.item(&item.item)?;
            self.put(b"\n")?;
        }
        Ok(())
    }

    fn item(&mut self, item: &ItemText) -> Result<(), AllocError> {
        match item {
            ItemText::Trace(file) => self.named(b"trace ", *file),
            ItemText::Preprocessed(file) => self.named(b"preprocessed ", *file),
            ItemText::Lookups(file) => self.named(b"lookups ", *file),
            ItemText::Height(height) => {
                self.put(b"height ")?;
                self.number(*height)
            }
            ItemText::Columns(columns) => {
                self.put(b"columns ")?;
                self.spans(columns)
            }
            ItemText::Public(name, value) => {
                self.named(b"public ", *name)?;
                self.put(b" ")?;
                self.number(*value)
            }
            ItemText::Let(name, value) => {
                self.named(b"let ", *name)?;
                self.put(b" ")?;
                self.tree(value)
            }
            ItemText::Assert(value) => {
                self.put(b"assert ")?;
                self.tree(value)
            }
            ItemText::AssertBool(value) => {
                self.put(b"assert bool ")?;
                self.tree(value)
            }
            ItemText::Message(message) => self.message(message),
            ItemText::Together(parts) => self.parts(b"together", parts),
            ItemText::Exclusive(parts) => self.parts(b"exclusive", parts),
        }
    }

    fn named(&mut self, word: &[u8], name: Span) -> Result<(), AllocError> {
        self.put(word)?;
        self.span(name)
    }

    fn parts(&mut self, word: &[u8], parts: &[PartText]) -> Result<(), AllocError> {
        self.put(word)?;
        for part in parts {
            self.put(b" ")?;
            if let Some(flag) = &part.flag {
                self.tree(flag)?;
                self.put(b"? ")?;
            }
            self.message(&part.message)?;
        }
        Ok(())
    }

    fn message(&mut self, message: &MessageText) -> Result<(), AllocError> {
        match message.verb {
            Verb::Query | Verb::Send => self.put(b"+ ")?,
            Verb::Provide | Verb::Receive => self.put(b"- ")?,
        }
        match message.bus {
            Some(bus) => self.span(bus)?,
            None => self.put(b"local")?,
        }
        self.put(b"(")?;
        let mut first = true;
        for value in &message.tuple {
            if !first {
                self.put(b" ")?;
            }
            first = false;
            self.tree(value)?;
        }
        self.put(b")")?;
        self.count(message)
    }

    fn count(&mut self, message: &MessageText) -> Result<(), AllocError> {
        if let Some(times) = &message.times {
            self.put(b" times ")?;
            self.tree(times)?;
        }
        if let Some(most) = message.at_most {
            self.put(b" at most ")?;
            self.number(most)?;
        }
        Ok(())
    }

    fn tree(&mut self, tree: &Tree) -> Result<(), AllocError> {
        match tree {
            Tree::Name(span) => self.span(*span),
            Tree::Next(span) => self.named(b"next ", *span),
            Tree::Number(_, span) => self.span(*span),
            Tree::Negative(inner) => {
                self.put(b"-")?;
                self.tree(inner)
            }
            Tree::Sum(left, right) => {
                self.put(b"(")?;
                self.tree(left)?;
                self.put(b" + ")?;
                self.tree(right)?;
                self.put(b")")
            }
            Tree::Difference(left, right) => {
                self.put(b"(")?;
                self.tree(left)?;
                self.put(b" - ")?;
                self.tree(right)?;
                self.put(b")")
            }
            Tree::Product(left, right) => {
                self.put(b"(")?;
                self.tree(left)?;
                self.put(b" * ")?;
                self.tree(right)?;
                self.put(b")")
            }
            Tree::Power(base, exponent) => {
                self.tree(base)?;
                self.put(b"^")?;
                self.number(*exponent)
            }
        }
    }
}
