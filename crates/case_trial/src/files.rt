// The case files: those of the folder `data`, or where there is none those of the folder where the program runs.

use anyhow::{Context, Result};
use std::alloc::{AllocError, Global};
use std::fs;

// A case file: its name without the ending, and its text.
#[derive(Drop)]
pub(crate) struct CaseFile {
    pub name: String,
    pub text: String,
}

// What may stand behind `<` and before `:`, and the IRI that it stands for.
const PREFIXES: [(&str, &str); 25] = [
    ("<wd:", "<http://www.wikidata.org/entity/"),
    ("<wds:", "<http://www.wikidata.org/entity/statement/"),
    ("<wdv:", "<http://www.wikidata.org/value/"),
    ("<wdref:", "<http://www.wikidata.org/reference/"),
    ("<wdt:", "<http://www.wikidata.org/prop/direct/"),
    ("<wdno:", "<http://www.wikidata.org/prop/novalue/"),
    ("<p:", "<http://www.wikidata.org/prop/"),
    ("<ps:", "<http://www.wikidata.org/prop/statement/"),
    ("<psv:", "<http://www.wikidata.org/prop/statement/value/"),
    ("<pq:", "<http://www.wikidata.org/prop/qualifier/"),
    ("<pqv:", "<http://www.wikidata.org/prop/qualifier/value/"),
    ("<pr:", "<http://www.wikidata.org/prop/reference/"),
    ("<prv:", "<http://www.wikidata.org/prop/reference/value/"),
    ("<genid:", "<http://www.wikidata.org/.well-known/genid/"),
    ("<wikibase:", "<http://wikiba.se/ontology#"),
    ("<schema:", "<http://schema.org/"),
    ("<rdf:", "<http://www.w3.org/1999/02/22-rdf-syntax-ns#"),
    ("<rdfs:", "<http://www.w3.org/2000/01/rdf-schema#"),
    ("<owl:", "<http://www.w3.org/2002/07/owl#"),
    ("<skos:", "<http://www.w3.org/2004/02/skos/core#"),
    ("<prov:", "<http://www.w3.org/ns/prov#"),
    ("<ontolex:", "<http://www.w3.org/ns/lemon/ontolex#"),
    ("<dct:", "<http://purl.org/dc/terms/"),
    ("<xsd:", "<http://www.w3.org/2001/XMLSchema#"),
    ("<geo:", "<http://www.opengis.net/ont/geosparql#"),
];

// The names of the files `*.case` without this ending, in their order.
pub(crate) fn names(rt: &HostRuntime, folder: &str) -> Result<Vec<String>> {
    let mut names = Vec::new(rt.alloc());
    for entry in fs::read_dir(rt, folder)? {
        if let Some(name) = entry?.file_name().strip_suffix(".case") {
            names.push(String::from_str(rt.alloc(), name)?)?;
        }
    }
    names.sort()?;
    Ok(names)
}

// The case file with this name, and with the IRIs of all prefixes.
pub(crate) fn read_file(rt: &HostRuntime, folder: &str, name: String) -> Result<CaseFile> {
    let path = format!(in rt.alloc(); "{folder}/{name}.case")?;
    let mut text = fs::read_to_string(rt, path.as_str()).context(format_args!("reading {path}"))?;
    write_prefixes_out(rt.alloc(), &mut text)?;
    Ok(CaseFile { name, text })
}

// Puts the IRI of each prefix in its place.
fn write_prefixes_out(alloc: Global, text: &mut String) -> Result<(), AllocError> {
    for (prefix, iri) in &PREFIXES {
        *text = text.replace(alloc, *prefix, iri)?;
    }
    Ok(())
}
