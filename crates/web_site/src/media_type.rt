//! What a file is, by the ending of its name.

ghost use Rattle.std.specs.Prelude.{◌≡◌, IsTrue};
ghost use Rattle.http.specs.FieldValue.{is_visible_text};
ghost use Rattle.web_site.specs.MediaTypes.{media_type_by_name, content_type};

/// What a file is.
#[derive(Clone, Copy, Debug, PartialEq, Eq)]
pub enum MediaType {
    /// An HTML page.
    Html,
    /// A JavaScript file.
    Script,
    /// A style sheet.
    Style,
    /// Settings, or words of another language.
    Json,
    /// A picture in the format SVG.
    Svg,
    /// A picture in the format PNG.
    Png,
    /// The icon that a browser shows beside the name of a page.
    Icon,
    /// A sound in the format MP3.
    Mp3,
    /// A sound in the format Ogg.
    Ogg,
    /// A font in the format WOFF.
    Woff,
    /// A font in the format TrueType.
    TrueType,
}

impl MediaType {
    /// What a file of this name is, or `None` where files of its ending aren't served.
    pub fn of(name: &str) -> Option<MediaType>
        ensures { result ≡ media_type_by_name name.now }
    {
        let name = name.as_bytes();
        if name.ends_with(b".html") {
            Some(MediaType::Html)
        } else if name.ends_with(b".js") {
            Some(MediaType::Script)
        } else if name.ends_with(b".css") {
            Some(MediaType::Style)
        } else if name.ends_with(b".json") {
            Some(MediaType::Json)
        } else if name.ends_with(b".svg") {
            Some(MediaType::Svg)
        } else if name.ends_with(b".png") {
            Some(MediaType::Png)
        } else if name.ends_with(b".ico") {
            Some(MediaType::Icon)
        } else if name.ends_with(b".mp3") {
            Some(MediaType::Mp3)
        } else if name.ends_with(b".oga") {
            Some(MediaType::Ogg)
        } else if name.ends_with(b".woff") {
            Some(MediaType::Woff)
        } else if name.ends_with(b".ttf") {
            Some(MediaType::TrueType)
        } else {
            None
        }
    }

    /// The Content-Type by which a browser is told it (RFC 9110, section 8.3).
    pub fn content_type(self) -> &'static str
        ensures value { result.now ≡ content_type self }
        ensures visible { IsTrue (is_visible_text result.now) }
    {
        match self {
            MediaType::Html => "text/html; charset=utf-8",
            MediaType::Script => "text/javascript; charset=utf-8",
            MediaType::Style => "text/css; charset=utf-8",
            MediaType::Json => "application/json",
            MediaType::Svg => "image/svg+xml",
            MediaType::Png => "image/png",
            MediaType::Icon => "image/x-icon",
            MediaType::Mp3 => "audio/mpeg",
            MediaType::Ogg => "audio/ogg",
            MediaType::Woff => "font/woff",
            MediaType::TrueType => "font/ttf",
        }
    }
}
