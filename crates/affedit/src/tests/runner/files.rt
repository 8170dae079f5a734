//! The bytes that rows write down.

use std::alloc::AllocError;

/// Adds the bytes of a file whose lines are parted by bars.
pub(super) fn push_file(lines: &str, file: &mut Vec<u8>) -> Result<(), AllocError> {
    for (place, line) in lines.split('|').enumerate() {
        if place > 0 {
            file.push(b'\n')?;
        }
        push_repeated(line, file)?;
    }
    Ok(())
}

/// Adds a line, or one that stands so many times behind a star.
fn push_repeated(line: &str, file: &mut Vec<u8>) -> Result<(), AllocError> {
    let Some((count, repeated)) = line.split_once('*') else {
        return push_line(line, file);
    };
    let Ok(count) = count.parse::<u32>() else {
        return push_line(line, file);
    };
    for number in 0..count {
        if number > 0 {
            file.push(b'\n')?;
        }
        push_line(repeated, file)?;
    }
    Ok(())
}

/// Adds a line in which every second part, between two signs `@`, stands for other bytes.
pub(super) fn push_line(line: &str, file: &mut Vec<u8>) -> Result<(), AllocError> {
    let mut is_plain = true;
    for part in line.split('@') {
        if is_plain {
            file.extend_from_slice(part.as_bytes())?;
        } else {
            push_marked(part, file)?;
        }
        is_plain = !is_plain;
    }
    Ok(())
}

/// Adds what stands between two signs: a number and a text, or bytes by their digits.
fn push_marked(part: &str, file: &mut Vec<u8>) -> Result<(), AllocError> {
    let Some((count, text)) = part.split_once(' ') else {
        return push_digits(part, file);
    };
    push_times(text, count.parse().unwrap_or(0), file)
}

/// Adds a text so many times, a thousand of them at once.
fn push_times(text: &str, count: u32, file: &mut Vec<u8>) -> Result<(), AllocError> {
    let thousand = text.repeat(*file.allocator(), 1000)?;
    for _ in 0..count / 1000 {
        file.extend_from_slice(thousand.as_bytes())?;
    }
    for _ in 0..count % 1000 {
        file.extend_from_slice(text.as_bytes())?;
    }
    Ok(())
}

/// Adds bytes of two hexadecimal digits each, behind a letter `x`.
fn push_digits(part: &str, file: &mut Vec<u8>) -> Result<(), AllocError> {
    let digits = part.strip_prefix('x').unwrap_or("");
    let mut first = None;
    for c in digits.chars() {
        let digit = u8::try_from(c.to_digit(16).unwrap_or(0)).unwrap_or(0);
        first = match first {
            None => Some(digit),
            Some(high) => {
                file.push(16u8.wrapping_mul(high).wrapping_add(digit))?;
                None
            },
        };
    }
    Ok(())
}
