//! What is read of texts that were spelled.
ghost use Rattle.hsr_page.specs.Reading.{EscapedIsHarmless, EscapedIsRead, JsonIsHarmless, JsonIsRead, PutIsRead, PutJsonIsRead};

/// A browser reads an escaped text back as it was; nothing in it begins or ends an element or an attribute, and each ampersand begins
/// one of five references.
pub fn escaped_is_read()
    ensures read { EscapedIsRead }
    ensures put { PutIsRead }
    ensures harmless { EscapedIsHarmless }
{}

/// `JSON.parse` reads a string of JSON back as the text that it was, whatever stands behind it; no `<` is left in it, so that no end of a
/// script element and no comment begins there.
pub fn json_is_read()
    ensures read { JsonIsRead }
    ensures put { PutJsonIsRead }
    ensures harmless { JsonIsHarmless }
{}
