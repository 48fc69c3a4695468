// What is read of fonts, and what is laid out in them; a file a subject.

mod fonts;
mod laid;
