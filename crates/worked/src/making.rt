//! Octets for the examples.
#[cfg(test)]
pub mod examples {
    use octets::octets_of;
    use std::alloc::{AllocError, Global};
    use std::test::Fail;
    use texts::read_hex;

    /// A sheet of one match-all rule of precedence 5: ATSSS-LL, load balancing with a share of 50.
    pub const ONE_RULE: &str = "0008050001010403030601000A";

    /// The octets that a text in hexadecimal stands for.
    pub fn hex(heap: Global, text: &str) -> Result<Vec<u8>, Fail> {
        let mut octets = vec![in heap; 0u8; text.len() / 2]?;
        read_hex(text.as_bytes(), octets.as_mut_slice())?;
        Ok(octets)
    }

    /// A sheet of one rule of precedence 5 with these components and this descriptor.
    pub fn sheet_of(heap: Global, components: &str, descriptor: &str) -> Result<Vec<u8>, Fail> {
        let components = hex(heap, components)?;
        let descriptor = hex(heap, descriptor)?;
        let size = components.len() as u128;
        let body = 3 + size + descriptor.len() as u128;
        let [b0, b1] = octets_of::<2>(body);
        let [s0, s1] = octets_of::<2>(size);
        let [d0, d1] = octets_of::<2>(2 + body);
        let mut sheet = Vec::new(heap);
        sheet.extend_from_slice(&[b0, b1, 5, s0, s1])?;
        sheet.extend_from_slice(components.as_slice())?;
        sheet.extend_from_slice(descriptor.as_slice())?;
        sheet.extend_from_slice(&[1, d0, d1])?;
        Ok(sheet)
    }

    /// `count` rules of precedence 0, 1, 2 and on, the last one with a precedence of its own.
    pub fn many_rules(heap: Global, count: u8, last: u8) -> Result<Vec<u8>, AllocError> {
        let mut sheet = Vec::new(heap);
        for i in 0..count {
            let precedence = if i == count - 1 { last } else { i };
            sheet.extend_from_slice(&[0, 8, precedence, 0, 1, 1, 4, 3, 3, 6])?;
        }
        let [d0, d1] = octets_of::<2>(u128::from(count) * 10);
        sheet.extend_from_slice(&[count, d0, d1])?;
        Ok(sheet)
    }

    /// The sheet of one rule under a heading of `length` octets.
    pub fn under_heading(heap: Global, length: usize) -> Result<Vec<u8>, Fail> {
        let mut sheet = vec![in heap; 0x48u8; length]?;
        sheet.extend_from_slice(hex(heap, ONE_RULE)?.as_slice())?;
        Ok(sheet)
    }
}
